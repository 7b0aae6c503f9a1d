//! The command `migrate`: databases of version 1, of version 2, and others.

use crate::transcript::{POLICY, perform};

/// New databases, and words and files that are refused.
const NEW: &str = r#"
# a database that does not exist is made
$ migrate --db @/db
| already version 2
mode db 600
$ migrate --db @/db
| already version 2
$ objects --db @/db --repo studio/film
# one with rows is left as it is
token a ann studio/film
$ session --db @/db --policy @/policy --now 1463500146
lock a studio/film {"path":"art/hero.psd"}
reply 201 {"lock":{"id":"1","locked_at":"2016-05-17T15:49:06Z","owner":{"name":"ann"},"path":"art/hero.psd"}}
$ migrate --db @/db
| already version 2
$ locks --db @/db --repo studio/film
| 1 refs/heads/main ann 2016-05-17T15:49:06Z art/hero.psd
$ prune --db @/db --now 1463503600
| pruned 1 tokens
# what is beside a new one may be of a database that was lost
file other-contents 4 65
chmod other-contents 640
$ migrate --chunks --db @/other
| already version 2
mode other-contents 640
# it needs the file
$ migrate --via @/socket
error error: unexpected argument '--via' found
error
error Usage: custody migrate [OPTIONS] --db <FILE>
error
error For more information, try '--help'.
status 2
$ migrate
error error: the following required arguments were not provided:
error   --db <FILE>
error
error Usage: custody migrate --db <FILE>
error
error For more information, try '--help'.
status 2
# files that are no database
$ migrate --db @
error custody: store G2
status 1
$ migrate --db @/nowhere/db
error custody: store G2
status 1
missing nowhere
$ migrate --db :memory:
error custody: store G2
status 1
missing ../:memory:
"#;

#[test]
fn a_new_database_has_version_2(rt: HostRuntime) {
    perform(&rt, &rt, "migrated_new", POLICY, NEW);
}

/// A database of version 1, before and after it is migrated.
const OLD: &str = r#"
# a database of version 1, with an object, a lock and a token of ann, and an upload that was not completed
sql CREATE TABLE meta (one INTEGER PRIMARY KEY CHECK (one = 1), version INTEGER NOT NULL CHECK (version = 1)) STRICT
sql CREATE TABLE repos (name TEXT NOT NULL PRIMARY KEY, made INTEGER NOT NULL CHECK (made >= 0 AND made <= 4294967295), used INTEGER NOT NULL CHECK (used >= 0)) STRICT
sql CREATE TABLE tokens (digest BLOB NOT NULL PRIMARY KEY, user TEXT NOT NULL, repo TEXT NOT NULL, op INTEGER NOT NULL CHECK (op >= 1 AND op <= 2), expires INTEGER NOT NULL) STRICT
sql CREATE TABLE uploads (id INTEGER PRIMARY KEY AUTOINCREMENT, repo TEXT NOT NULL, oid TEXT NOT NULL, size INTEGER NOT NULL, done INTEGER NOT NULL CHECK (done >= 0 AND done <= 1), UNIQUE (repo, oid, done)) STRICT
sql CREATE TABLE chunks (upload INTEGER NOT NULL, n INTEGER NOT NULL, bytes BLOB NOT NULL, PRIMARY KEY (upload, n)) STRICT
sql CREATE TABLE locks (repo TEXT NOT NULL, id INTEGER NOT NULL, ref TEXT NOT NULL, path TEXT NOT NULL, owner TEXT NOT NULL, moment INTEGER NOT NULL, PRIMARY KEY (repo, id), UNIQUE (repo, ref, path)) STRICT
sql INSERT INTO meta (one, version) VALUES (1, 1)
sql INSERT INTO repos VALUES ('studio/film', 2, 3)
sql INSERT INTO uploads VALUES (1, 'studio/film', 'ba7816bf8f01cfea414140de5dae2223b00361a396177a9cb410ff61f20015ad', 3, 1)
sql INSERT INTO chunks VALUES (1, 0, x'616263')
sql INSERT INTO uploads VALUES (5, 'studio/film', '2cf24dba5fb0a30e26e83b2ac5b9e29e1b161e5c1fa7425e73043362938b9824', 5, 0)
sql INSERT INTO locks VALUES ('studio/film', 2, 'refs/heads/main', 'art/hero.psd', 'ann', 1463500146)
sql INSERT INTO tokens VALUES (x'ffe054fe7ae0cb6dc65c3af9b61d5209f439851db43d0ba5997337df154668eb', 'ann', 'studio/film', 2, 1463503600)
# every other command refuses it
$ objects --db @/db --repo studio/film
error custody: store G1
status 1
$ locks --db @/db --repo studio/film
error custody: store G1
status 1
$ check --db @/db
error custody: store G1
status 1
$ sweep --db @/db
error custody: store G1
status 1
$ prune --db @/db --now 1463500146
error custody: store G1
status 1
$ retire --db @/db --repo studio/film ba7816bf8f01cfea414140de5dae2223b00361a396177a9cb410ff61f20015ad
error custody: store G1
status 1
$ authenticate --db @/db --policy @/policy --user ann --now 5 --random @/a studio/film upload
error custody: store G1
status 1
$ session --db @/db --policy @/policy --now 1463500146
get a studio/film locks
error custody: store G1
status 1
$ serve --db @/db --policy @/policy --listen 127.0.0.1:0
error custody: store G1
status 1
# it is migrated once
$ migrate --db @/db
| migrated from version 1
$ migrate --db @/db
| already version 2
# and has what it had
$ objects --db @/db --repo studio/film
| ba7816bf8f01cfea414140de5dae2223b00361a396177a9cb410ff61f20015ad 3
$ check --db @/db
| checked 1 objects
$ locks --db @/db --repo studio/film
| 2 refs/heads/main ann 2016-05-17T15:49:06Z art/hero.psd
$ sweep --db @/db
| swept 1 uploads
$ session --db @/db --policy @/policy --now 1463500146
get a studio/film locks
reply 200 {"locks":[{"id":"2","locked_at":"2016-05-17T15:49:06Z","owner":{"name":"ann"},"path":"art/hero.psd"}]}
lock a studio/film {"path":"art/sky.psd"}
reply 201 {"lock":{"id":"3","locked_at":"2016-05-17T15:49:06Z","owner":{"name":"ann"},"path":"art/sky.psd"}}
# an object can be removed from it
$ retire --db @/db --repo studio/film ba7816bf8f01cfea414140de5dae2223b00361a396177a9cb410ff61f20015ad
| retired ba7816bf8f01cfea414140de5dae2223b00361a396177a9cb410ff61f20015ad
$ session --db @/db --policy @/policy --now 1463500146
get a studio/film content/ba7816bf8f01cfea414140de5dae2223b00361a396177a9cb410ff61f20015ad
reply 410 {"message":"X4: the object was removed by its owner"}
$ prune --db @/db --now 1463503600
| pruned 1 tokens
"#;

#[test]
fn a_database_of_version_1_is_migrated_once(rt: HostRuntime) {
    perform(&rt, &rt, "migrated", POLICY, OLD);
}

/// A database whose contents are moved into a file and back.
const MOVED: &str = r#"
# a database of version 1, with an object, a lock and a token of ann, and an upload that was not completed
sql CREATE TABLE meta (one INTEGER PRIMARY KEY CHECK (one = 1), version INTEGER NOT NULL CHECK (version = 1)) STRICT
sql CREATE TABLE repos (name TEXT NOT NULL PRIMARY KEY, made INTEGER NOT NULL CHECK (made >= 0 AND made <= 4294967295), used INTEGER NOT NULL CHECK (used >= 0)) STRICT
sql CREATE TABLE tokens (digest BLOB NOT NULL PRIMARY KEY, user TEXT NOT NULL, repo TEXT NOT NULL, op INTEGER NOT NULL CHECK (op >= 1 AND op <= 2), expires INTEGER NOT NULL) STRICT
sql CREATE TABLE uploads (id INTEGER PRIMARY KEY AUTOINCREMENT, repo TEXT NOT NULL, oid TEXT NOT NULL, size INTEGER NOT NULL, done INTEGER NOT NULL CHECK (done >= 0 AND done <= 1), UNIQUE (repo, oid, done)) STRICT
sql CREATE TABLE chunks (upload INTEGER NOT NULL, n INTEGER NOT NULL, bytes BLOB NOT NULL, PRIMARY KEY (upload, n)) STRICT
sql CREATE TABLE locks (repo TEXT NOT NULL, id INTEGER NOT NULL, ref TEXT NOT NULL, path TEXT NOT NULL, owner TEXT NOT NULL, moment INTEGER NOT NULL, PRIMARY KEY (repo, id), UNIQUE (repo, ref, path)) STRICT
sql INSERT INTO meta (one, version) VALUES (1, 1)
sql INSERT INTO repos VALUES ('studio/film', 2, 3)
sql INSERT INTO uploads VALUES (1, 'studio/film', 'ba7816bf8f01cfea414140de5dae2223b00361a396177a9cb410ff61f20015ad', 3, 1)
sql INSERT INTO chunks VALUES (1, 0, x'616263')
sql INSERT INTO uploads VALUES (5, 'studio/film', '2cf24dba5fb0a30e26e83b2ac5b9e29e1b161e5c1fa7425e73043362938b9824', 5, 0)
sql INSERT INTO locks VALUES ('studio/film', 2, 'refs/heads/main', 'art/hero.psd', 'ann', 1463500146)
sql INSERT INTO tokens VALUES (x'ffe054fe7ae0cb6dc65c3af9b61d5209f439851db43d0ba5997337df154668eb', 'ann', 'studio/film', 2, 1463503600)
chmod db 640
# it gets version 2 first, and then a file of contents
$ migrate --contents --db @/db
| migrated from version 1, 1 objects
missing db-moving
missing db-moving-contents
missing db-wal
mode db 640
mode db-contents 640
$ migrate --contents --db @/db
| already version 3
$ migrate --db @/db
| already version 3
# and has what it had, without the upload
$ objects --db @/db --repo studio/film
| ba7816bf8f01cfea414140de5dae2223b00361a396177a9cb410ff61f20015ad 3
$ check --db @/db
| checked 1 objects
$ locks --db @/db --repo studio/film
| 2 refs/heads/main ann 2016-05-17T15:49:06Z art/hero.psd
$ usage --db @/db --policy @/policy --now 1463500146
| repository   objects  bytes    quota  share  staged  locks  tokens
| studio/film        1      3  1000000     0%       -      1       1
| contents: 0 kept, 0 free, 0 in the file
$ sweep --db @/db
| swept 0 uploads
# back
$ migrate --chunks --db @/db
| migrated from version 3, 1 objects
missing db-contents
missing db-moving
mode db 640
$ migrate --chunks --db @/db
| already version 2
# bytes that no copy has left may be of a database that was lost
file db-contents 4 65
$ migrate --contents --db @/db --explain
error custody: store G2
error moved/db-contents: this file has bytes, and the database is new: move it away, or put its database beside it
status 1
missing db-moving-contents
# files that a stop has left are removed
file db-moving 4 65
file db-moving-contents 4 65
file db-moving-contents-wal 0 65
$ migrate --chunks --db @/db
| already version 2
missing db-contents
missing db-moving
missing db-moving-contents
missing db-moving-contents-wal
$ check --db @/db
| checked 1 objects
# an object of 65,536 bytes without its bytes
sql INSERT INTO uploads VALUES (9, 'studio/film', 'bf718b6f653bebc184e1479f1935b8da974d701b893afcf49e701f3e2f9f9c5a', 65536, 1)
$ migrate --contents --db @/db --explain
error custody: store G2
error moved/db: an object has fewer or more bytes than its size says: custody repair removes it
status 1
$ repair --db @/db
| removed studio/film bf718b6f653bebc184e1479f1935b8da974d701b893afcf49e701f3e2f9f9c5a
| removed 1 objects
missing db-contents
# a database of version 2, beside the contents of a copy that was removed
file db-moving-contents 4 65
$ migrate --contents --db @/db
| migrated from version 2, 1 objects
$ session --db @/db --policy @/policy --now 1463500146
get a studio/film locks
reply 200 {"locks":[{"id":"2","locked_at":"2016-05-17T15:49:06Z","owner":{"name":"ann"},"path":"art/hero.psd"}]}
# one of the two
$ migrate --contents --chunks --db @/db
error custody: bad value for --chunks
status 2
"#;

#[test]
fn contents_are_moved_into_a_file_and_back(rt: HostRuntime) {
    perform(&rt, &rt, "moved", POLICY, MOVED);
}

/// Databases that have neither version.
const OTHER: &str = r#"
# only some of the tables
sql CREATE TABLE meta (one INTEGER PRIMARY KEY CHECK (one = 1), version INTEGER NOT NULL CHECK (version = 1)) STRICT
sql INSERT INTO meta (one, version) VALUES (1, 1)
$ migrate --db @/db
error custody: store G1
status 1
$ objects --db @/db --repo studio/film
error custody: store G1
status 1
sql DROP TABLE meta
sql CREATE TABLE repos (name TEXT NOT NULL PRIMARY KEY, made INTEGER NOT NULL CHECK (made >= 0 AND made <= 4294967295), used INTEGER NOT NULL CHECK (used >= 0)) STRICT
sql CREATE TABLE tokens (digest BLOB NOT NULL PRIMARY KEY, user TEXT NOT NULL, repo TEXT NOT NULL, op INTEGER NOT NULL CHECK (op >= 1 AND op <= 2), expires INTEGER NOT NULL) STRICT
sql CREATE TABLE uploads (id INTEGER PRIMARY KEY AUTOINCREMENT, repo TEXT NOT NULL, oid TEXT NOT NULL, size INTEGER NOT NULL, done INTEGER NOT NULL CHECK (done >= 0 AND done <= 1), UNIQUE (repo, oid, done)) STRICT
sql CREATE TABLE chunks (upload INTEGER NOT NULL, n INTEGER NOT NULL, bytes BLOB NOT NULL, PRIMARY KEY (upload, n)) STRICT
sql CREATE TABLE locks (repo TEXT NOT NULL, id INTEGER NOT NULL, ref TEXT NOT NULL, path TEXT NOT NULL, owner TEXT NOT NULL, moment INTEGER NOT NULL, PRIMARY KEY (repo, id), UNIQUE (repo, ref, path)) STRICT
$ migrate --db @/db
error custody: store G1
status 1
# another definition of one
sql CREATE TABLE meta (one INTEGER PRIMARY KEY, version INTEGER NOT NULL) STRICT
sql INSERT INTO meta (one, version) VALUES (1, 1)
$ migrate --db @/db
error custody: store G1
status 1
sql DROP TABLE meta
sql CREATE TABLE meta (one INTEGER PRIMARY KEY CHECK (one = 1), version INTEGER NOT NULL CHECK (version = 1)) STRICT
# the tables without their version
$ migrate --db @/db
error custody: store G1
status 1
sql INSERT INTO meta (one, version) VALUES (1, 1)
# a table of the version that it is to have
sql CREATE TABLE retired (name TEXT) STRICT
$ migrate --db @/db
error custody: store G1
status 1
"#;

#[test]
fn another_database_is_not_migrated(rt: HostRuntime) {
    perform(&rt, &rt, "not_migrated", POLICY, OTHER);
}
