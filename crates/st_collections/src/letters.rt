// Letters, cases and digits of bytes: those of ASCII.
ghost use Rattle.std.specs.Prelude.{◌≡◌};
ghost use Rattle.st_code.specs.Texts.{is_upper, is_lower, is_digit, is_letter, to_upper, to_lower};

#[tactic(auto, unfolding(st_code::specs::Texts::is_upper))]
pub fn is_upper_letter(byte: u8) -> bool
    ensures { result ≡ is_upper byte }
{
    byte >= b'A' && byte <= b'Z'
}

#[tactic(auto, unfolding(st_code::specs::Texts::is_lower))]
pub fn is_lower_letter(byte: u8) -> bool
    ensures { result ≡ is_lower byte }
{
    byte >= b'a' && byte <= b'z'
}

#[tactic(auto, unfolding(st_code::specs::Texts::is_digit))]
pub fn is_digit_byte(byte: u8) -> bool
    ensures { result ≡ is_digit byte }
{
    byte >= b'0' && byte <= b'9'
}

#[tactic(auto, unfolding(st_code::specs::Texts::is_letter))]
pub fn is_letter_byte(byte: u8) -> bool
    ensures { result ≡ is_letter byte }
{
    is_upper_letter(byte) || is_lower_letter(byte)
}

#[tactic(auto, unfolding(st_code::specs::Texts::is_lower, st_code::specs::Texts::to_upper))]
pub fn upper_of(byte: u8) -> u8
    ensures { result ≡ to_upper byte }
{
    if is_lower_letter(byte) {
        byte - 32
    } else {
        byte
    }
}

#[tactic(auto, unfolding(st_code::specs::Texts::is_upper, st_code::specs::Texts::to_lower))]
pub fn lower_of(byte: u8) -> u8
    ensures { result ≡ to_lower byte }
{
    if is_upper_letter(byte) {
        byte + 32
    } else {
        byte
    }
}
