// Well-formed UTF-8, as Table 3-7 of the Unicode Standard has it.
#![tactic(auto)]

ghost use Rattle.std.specs.Prelude.{◌≡◌, length, IfOk, IfErr};
ghost use Rattle.utf8.specs.Table.{IsWellFormed, IsLongestFormed, TableIsUtf8};

/// Well-formed bytes as text; for others the length of their longest well-formed beginning, in
/// bytes.
pub fn check_utf8(bytes: &[u8]) -> Result<&str, usize>
    ensures text { IfOk result (λ text. (text.now ≡ bytes.now) × IsWellFormed bytes.now) }
    ensures longest { IfErr result (λ n. (¬ IsWellFormed bytes.now) × IsLongestFormed bytes.now n) }
    ensures table { TableIsUtf8 }
{
    std::str::from_utf8(bytes).map_err(|e| e.valid_up_to())
}
