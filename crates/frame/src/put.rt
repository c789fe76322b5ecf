// RULES 14.1. The number of a listing line.
ghost use Rattle.std.specs.Prelude.{◌≤◌, length};
ghost use Rattle.texts.specs.Put.{Put};
ghost use Rattle.texts.specs.Decimal.{decimal};

// The digits of a number at the front of what is lent, and how many they are; those before the last one first, so that
// nothing has to be turned round. Where they fit is a clause, since how many there are hangs on the number. (Not the
// writer of `packets`: that one carries a place on from field to field, and a listing line has one number.)
pub(crate) fn put_decimal(buf: &mut [u8], n: u64) -> usize
    requires { length (decimal n) ≤ length buf.old }
    ensures { Put buf.old 0 (decimal n) result buf.new }
{
    if n < 10 {
        buf[0] = (n % 10) as u8 + b'0';
        return 1;
    }
    let at = put_decimal(buf, n / 10);
    buf[at] = (n % 10) as u8 + b'0';
    at + 1
}
