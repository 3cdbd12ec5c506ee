// The kind of a row, from cell 1.
ghost use Rattle.std.specs.Prelude.{◌≡◌};
ghost use Rattle.member.specs.Kind.{kind_of};

use member::kind::Kind;

// The kind of a code, none where it is unknown. A function and no `TryFrom`: that trait and the kind are both other crates' own.
pub fn kind_of(code: u64) -> Option<Kind>
    ensures { result ≡ kind_of code }
{
    match code {
        1 => Some(Kind::Tension),
        2 => Some(Kind::Bending),
        3 => Some(Kind::Compression),
        4 => Some(Kind::CompressionBending),
        5 => Some(Kind::TensionBending),
        _ => None,
    }
}
