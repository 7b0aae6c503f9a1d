//! What each option expects.

/// What the value of an option has to be; empty for a name that is none of an option or an argument with a range.
pub fn expected(option: &str) -> &'static str {
    match option {
        "--user" => "1 to 40 of a-z, 0-9, _ and -, as ann",
        "--repo" =>
            "an owner, a slash and a name, each 1 to 40 of a-z, 0-9, _ and -, as studio/film",
        "--ref" => {
            "a whole ref, as refs/heads/main: at most 255 of A-Z, a-z, 0-9, /, ., _ and -, without .. and without an empty part"
        }
        "--path" => {
            "a path from the top of the repository, as art/hero.psd: 1 to 1024 bytes, without a leading slash, an empty part, . or .. as a part, a control character or a backslash"
        }
        "--right" => "pull, push, list, lock or force",
        "--now" => "a whole number of seconds since 1970-01-01T00:00:00Z, 0 to 253402300799",
        "--requests" => "a whole number, 1 to 1000000",
        "--idle" => "a whole number of seconds, 1 to 86400",
        "--seconds" => "a whole number of seconds, 1 to 600",
        "OID" => "the SHA-256 of the object: 64 of 0-9 and a-f",
        _ => "",
    }
}
