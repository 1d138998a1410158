//! Lines of a name and numbers.
ghost use Rattle.std.specs.Prelude.{◌≡◌, ◌≤◌, length};
ghost use Rattle.pg_print.specs.Lines.{number_line, pair_line, triple_line};

use arrayvec::ArrayString;
use itoa::Buffer;

/// At least the length of a line of a name of twelve bytes and three numbers.
pub(crate) const LINE: usize = 80;

/// A line of a name and one number.
pub(crate) fn number_line(name: &str, number: u64) -> ArrayString<LINE>
    requires { length name.now ≤ 12 }
    ensures { result.bytes ≡ number_line name.now number }
{
    let mut line = ArrayString::new();
    line.push_str(name);
    line.push_str(" ");
    line.push_str(Buffer::new().format(number));
    line.push_str("\n");
    line
}

/// A line of a name and two numbers.
pub(crate) fn pair_line(name: &str, first: u64, second: u64) -> ArrayString<LINE>
    requires { length name.now ≤ 12 }
    ensures { result.bytes ≡ pair_line name.now first second }
{
    let mut line = ArrayString::new();
    line.push_str(name);
    line.push_str(" ");
    line.push_str(Buffer::new().format(first));
    line.push_str(" ");
    line.push_str(Buffer::new().format(second));
    line.push_str("\n");
    line
}

/// A line of a name and three numbers.
pub(crate) fn triple_line(name: &str, first: u64, second: u64, third: u64) -> ArrayString<LINE>
    requires { length name.now ≤ 12 }
    ensures { result.bytes ≡ triple_line name.now first second third }
{
    let mut line = ArrayString::new();
    line.push_str(name);
    line.push_str(" ");
    line.push_str(Buffer::new().format(first));
    line.push_str(" ");
    line.push_str(Buffer::new().format(second));
    line.push_str(" ");
    line.push_str(Buffer::new().format(third));
    line.push_str("\n");
    line
}
