ghost use Rattle.std.specs.Prelude.{◌≡◌, Some, option_map};
ghost use Rattle.names.specs.Rules.{row_of};

use std::fmt;

/// Why a request is refused. A reply has the code, which [`fmt::Display`] writes.
///
/// The statuses are those of the Git LFS API (Batch, Locking) and of RFC 9110.
#[derive(Clone, Copy, Debug, PartialEq, Eq, Hash)]
pub enum Rule {
    /// No request head within 16,384 bytes, or a head of over 64 fields.
    H1,
    /// A `Transfer-Encoding` field.
    H2,
    /// A POST or PUT without `Content-Length`.
    H3,
    /// A repeated field, an invalid length, or a GET with a body.
    H4,
    /// A body over the limit of its method.
    H5,
    /// No route has this path.
    H6,
    /// The route does not serve this method.
    H7,
    /// `Accept` names no type that the server sends.
    H8,
    /// No bearer token.
    A1,
    /// The token is not in the store.
    A2,
    /// The token has expired.
    A3,
    /// The token is for another repository.
    A4,
    /// The request needs an upload token.
    A5,
    /// The policy has no such repository.
    R1,
    /// The body has the wrong shape.
    J1,
    /// A field, a query value or a part of the path is out of range.
    J2,
    /// A batch of too many objects.
    J3,
    /// A batch that names transfers, without `basic`.
    J4,
    /// The denial by the policy row with this number, counted from 1; 0 if no row matches.
    P(u32),
    /// Batch: the object is not stored.
    B1,
    /// Batch: the name or the size is not valid.
    B2,
    /// Batch: the hash algorithm is not SHA-256.
    B3,
    /// Batch: the object is stored with another size.
    B4,
    /// Batch: the quota does not hold the object.
    B5,
    /// Batch: the object was removed for good.
    B6,
    /// Download: the object is not stored.
    X1,
    /// Upload: the bytes do not match the object's name.
    X2,
    /// Upload: the quota does not hold the object.
    X3,
    /// Download and upload: the object was removed for good.
    X4,
    /// Verify: the object is not stored.
    V1,
    /// Verify: the object is stored with another size.
    V2,
    /// The path is locked.
    L1,
    /// The caller sees no lock of that id.
    L2,
    /// The lock is another user's.
    L3,
    /// The cursor is not a lock id.
    L4,
    /// The repository has no lock id left.
    L5,
    /// The store refused or memory ran out.
    S1,
}

impl Rule {
    /// The status of the reply; `None` for a denial by the policy, for which the request decides.
    pub fn status(&self) -> Option<u16>
        ensures { result ≡ (row_of self.now).status }
    {
        let status = match self {
            Rule::H1 | Rule::H4 => 400,
            Rule::A1 | Rule::A2 | Rule::A3 => 401,
            Rule::A5 | Rule::L3 => 403,
            Rule::H6 | Rule::A4 | Rule::R1 | Rule::B1 | Rule::X1 | Rule::V1 | Rule::L2 => 404,
            Rule::H7 => 405,
            Rule::H8 => 406,
            Rule::B3 | Rule::L1 => 409,
            Rule::B6 | Rule::X4 => 410,
            Rule::H3 => 411,
            Rule::H5 | Rule::J3 => 413,
            Rule::J1 | Rule::J2 | Rule::J4 | Rule::B2 | Rule::B4 | Rule::X2 | Rule::V2 | Rule::L4 =>
                422,
            Rule::S1 => 500,
            Rule::H2 => 501,
            Rule::B5 | Rule::X3 | Rule::L5 => 507,
            Rule::P(_) => return None,
        };
        Some(status)
    }

    /// The reason in words; `None` for a denial by the policy, whose words name the denied right.
    pub fn reason(&self) -> Option<&'static str>
        ensures { option_map (λ text. text.now) result ≡ (row_of self.now).reason }
    {
        let reason = match self {
            Rule::H1 => "bad request head",
            Rule::H2 => "transfer codings are not served",
            Rule::H3 => "a length is needed",
            Rule::H4 => "a field or body is not allowed here",
            Rule::H5 => "the body is too large",
            Rule::H6 => "no such route",
            Rule::H7 => "the method is not served here",
            Rule::H8 => "the reply type is not accepted",
            Rule::A1 => "a bearer token is needed",
            Rule::A2 => "the token is unknown",
            Rule::A3 => "the token has expired",
            Rule::A4 | Rule::R1 => "no such repository",
            Rule::A5 => "the token does not cover this",
            Rule::J1 => "the body has the wrong shape",
            Rule::J2 => "a field is out of range",
            Rule::J3 => "too many objects",
            Rule::J4 => "no transfer in common",
            Rule::B1 | Rule::X1 | Rule::V1 => "the object is not stored",
            Rule::B2 => "the object name or size is not valid",
            Rule::B3 => "the hash algorithm is not served",
            Rule::B4 | Rule::V2 => "the stored size differs",
            Rule::B5 | Rule::X3 => "the quota does not hold the object",
            Rule::B6 | Rule::X4 => "the object was removed by its owner",
            Rule::X2 => "the bytes do not have this name",
            Rule::L1 => "the path is already locked",
            Rule::L2 => "no such lock",
            Rule::L3 => "the lock belongs to another user",
            Rule::L4 => "the cursor is no lock id",
            Rule::L5 => "the lock ids are used up",
            Rule::S1 => "the store refused",
            Rule::P(_) => return None,
        };
        Some(reason)
    }
}

/// Writes the code, like `H1` or `P12`.
impl fmt::Display for Rule {
    ghost output = { λ rule. Some (row_of rule).code };

    fn fmt<W: fmt::Write>(&self, f: &mut fmt::Formatter<W>) -> fmt::Result {
        let code = match self {
            Rule::H1 => "H1",
            Rule::H2 => "H2",
            Rule::H3 => "H3",
            Rule::H4 => "H4",
            Rule::H5 => "H5",
            Rule::H6 => "H6",
            Rule::H7 => "H7",
            Rule::H8 => "H8",
            Rule::A1 => "A1",
            Rule::A2 => "A2",
            Rule::A3 => "A3",
            Rule::A4 => "A4",
            Rule::A5 => "A5",
            Rule::R1 => "R1",
            Rule::J1 => "J1",
            Rule::J2 => "J2",
            Rule::J3 => "J3",
            Rule::J4 => "J4",
            Rule::B1 => "B1",
            Rule::B2 => "B2",
            Rule::B3 => "B3",
            Rule::B4 => "B4",
            Rule::B5 => "B5",
            Rule::B6 => "B6",
            Rule::X1 => "X1",
            Rule::X2 => "X2",
            Rule::X3 => "X3",
            Rule::X4 => "X4",
            Rule::V1 => "V1",
            Rule::V2 => "V2",
            Rule::L1 => "L1",
            Rule::L2 => "L2",
            Rule::L3 => "L3",
            Rule::L4 => "L4",
            Rule::L5 => "L5",
            Rule::S1 => "S1",
            Rule::P(row) => return write!(f, "P{row}"),
        };
        f.write_str(code)
    }
}
