ghost use Rattle.std.specs.Prelude.{◌≡◌, ◌≤◌, length};
ghost use Rattle.pddl_lex.specs.Bytes.{front_length};
ghost use Rattle.pddl_lex.specs.Places.{is_in_line};

/// How many bytes stand before the end of the line.
pub fn line_length(bytes: &[u8]) -> usize
    ensures value { result ≡ front_length is_in_line bytes.now }
    ensures within { result ≤ length bytes.now }
{
    bytes.iter().take_while(|byte| **byte != 10).count()
}
