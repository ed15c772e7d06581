//! Places in a text.

ghost use Rattle.std.specs.Prelude.{◌≡◌, ◌+◌, ◌<◌, ◌^◌, length};
ghost use Rattle.xd_lex.specs.Tokens.{past};

use xd_base::Place;

/// The place after these bytes.
pub fn past(place: Place, bytes: &[u8]) -> Place
    requires line { place.line + length bytes.now < 2 ^ 64 }
    requires column { place.column + length bytes.now < 2 ^ 64 }
    ensures { result ≡ past place bytes.now }
{
    let mut line = place.line;
    let mut column = place.column;
    for b in bytes {
        let b = *b;
        if b == b'\n' {
            line += 1;
            column = 1;
        } else if !(0x80 <= b && b < 0xc0) {
            column += 1;
        }
    }
    Place { line, column }
}
