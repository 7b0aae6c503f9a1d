//! Objects of more than a chunk, which a database with a file of contents has there.

use crate::transcript::{POLICY, perform_on_forms};

/// Two objects that are stored, sent, damaged, removed and stored again. The names are those that `sha256sum` prints of
/// 100,000 times `a` and 70,000 times `c`.
const LARGE: &str = r#"
token a ann studio/film
$ session --db @/db --policy @/policy --now 1463500146
put a studio/film 6d1cf22d7cc09b085dfc25ee1a1f3ae0265804c607bc2074ad253bcc82fd81ee 100000 a
< HTTP/1.1 200 OK
< Content-Length: 0
<
put a studio/film 321afd2dee65ccc881e9abbc0ba0f8a794b39cd43473bba3a41373939a38cdaa 70000 c
< HTTP/1.1 200 OK
< Content-Length: 0
<
get a studio/film content/6d1cf22d7cc09b085dfc25ee1a1f3ae0265804c607bc2074ad253bcc82fd81ee
< HTTP/1.1 200 OK
< Content-Type: application/octet-stream
< Content-Length: 100000
<
bytes 100000 a
$ objects --db @/db --repo studio/film
| 321afd2dee65ccc881e9abbc0ba0f8a794b39cd43473bba3a41373939a38cdaa 70000
| 6d1cf22d7cc09b085dfc25ee1a1f3ae0265804c607bc2074ad253bcc82fd81ee 100000
$ usage --db @/db --policy @/policy --now 1463500146
| repository   objects   bytes    quota  share  staged  locks  tokens
| studio/film        2  170000  1000000    17%       -      0       1
in-file | contents: 170000 kept, 0 free, 170000 in the file
$ check --db @/db
| checked 2 objects
# a content under another name leaves nothing
$ session --db @/db --policy @/policy --now 1463500146
put a studio/film 2cf24dba5fb0a30e26e83b2ac5b9e29e1b161e5c1fa7425e73043362938b9824 100000 a
reply 422 {"message":"X2: the bytes do not have this name"}
$ sweep --db @/db
| swept 0 uploads
# other bytes, in both objects
in-rows sql UPDATE chunks SET bytes = x'62' WHERE n = 1
in-file file db-contents 170000 98
$ check --db @/db
| damaged studio/film 321afd2dee65ccc881e9abbc0ba0f8a794b39cd43473bba3a41373939a38cdaa
| damaged studio/film 6d1cf22d7cc09b085dfc25ee1a1f3ae0265804c607bc2074ad253bcc82fd81ee
| checked 2 objects
status 1
$ repair --db @/db
| removed studio/film 321afd2dee65ccc881e9abbc0ba0f8a794b39cd43473bba3a41373939a38cdaa
| removed studio/film 6d1cf22d7cc09b085dfc25ee1a1f3ae0265804c607bc2074ad253bcc82fd81ee
| removed 2 objects
$ usage --db @/db --policy @/policy --now 1463500146
| repository   objects  bytes    quota  share  staged  locks  tokens
| studio/film        0      0  1000000     0%       -      0       1
in-file | contents: 0 kept, 0 free, 0 in the file
$ session --db @/db --policy @/policy --now 1463500146
put a studio/film 6d1cf22d7cc09b085dfc25ee1a1f3ae0265804c607bc2074ad253bcc82fd81ee 100000 a
< HTTP/1.1 200 OK
< Content-Length: 0
<
put a studio/film 321afd2dee65ccc881e9abbc0ba0f8a794b39cd43473bba3a41373939a38cdaa 70000 c
< HTTP/1.1 200 OK
< Content-Length: 0
<
# one is removed for good, and the other stays
$ retire --db @/db --repo studio/film 6d1cf22d7cc09b085dfc25ee1a1f3ae0265804c607bc2074ad253bcc82fd81ee
| retired 6d1cf22d7cc09b085dfc25ee1a1f3ae0265804c607bc2074ad253bcc82fd81ee
$ session --db @/db --policy @/policy --now 1463500146
get a studio/film content/6d1cf22d7cc09b085dfc25ee1a1f3ae0265804c607bc2074ad253bcc82fd81ee
reply 410 {"message":"X4: the object was removed by its owner"}
get a studio/film content/321afd2dee65ccc881e9abbc0ba0f8a794b39cd43473bba3a41373939a38cdaa
< HTTP/1.1 200 OK
< Content-Type: application/octet-stream
< Content-Length: 70000
<
bytes 70000 c
# by a server
via usage --now 1463500146
| repository   objects  bytes    quota  share  staged  locks  tokens
| studio/film        1  70000  1000000     7%       -      0       1
in-file | contents: 70000 kept, 100000 free, 170000 in the file
via check
| checked 1 objects
via retire --repo studio/film 321afd2dee65ccc881e9abbc0ba0f8a794b39cd43473bba3a41373939a38cdaa
| retired 321afd2dee65ccc881e9abbc0ba0f8a794b39cd43473bba3a41373939a38cdaa
via check
| checked 0 objects
"#;

#[test]
fn large_objects_are_stored_sent_and_removed(rt: HostRuntime) {
    perform_on_forms(&rt, &rt, "large", POLICY, LARGE);
}
