// Parts of a line that JSON and CSV write differently. `json` says the form, as the first argument of the definitions of specs/Text does,
// which the contracts of the public calls cite.
ghost use Rattle.std.specs.Prelude.{◌≡◌, cond, ◌++◌, ◌+◌, ◌≤◌, length};
ghost use Rattle.decimal.specs.Decimal.{decimal_of};

use writing::Text;

// The greatest length of a record, and of the text before and after the records.
const MAX_LINE: usize = 512;

// A text that has room for any of these.
pub(crate) type Line = Text<MAX_LINE>;

// Writes `named` in JSON, `plain` in CSV. Each has at most 36 octets.
pub(crate) fn write_either(out: &mut Line, json: bool, named: &[u8], plain: &[u8])
    requires { (length named.now ≤ 36) × (length plain.now ≤ 36) × (length out.old + 36 ≤ 512) }
    ensures written { out.new ≡ out.old ++ cond json named.now plain.now }
    ensures room { length out.new ≤ length out.old + 36 }
{
    if json {
        out.word(named);
    } else {
        out.word(plain);
    }
}

// Writes a number after `named` in JSON, after `plain` in CSV.
pub(crate) fn write_value(out: &mut Line, json: bool, named: &[u8], plain: &[u8], number: u64)
    requires { (length named.now ≤ 36) × (length plain.now ≤ 36) × (length out.old + 56 ≤ 512) }
    ensures written { out.new ≡ out.old ++ (cond json named.now plain.now ++ decimal_of number) }
    ensures room { length out.new ≤ length out.old + 56 }
{
    write_either(out, json, named, plain);
    out.number(number);
}
