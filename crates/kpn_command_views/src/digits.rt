//! Numbers of lines that are made in millions: `write!` takes twice the time.
ghost use Rattle.std.specs.Fmt.{decimal, signed_decimal};
ghost use Rattle.kpn_command_base.specs.Added.{Adds};

use itoa::Buffer;
use kpn_command_base::Pushed;

pub(crate) fn push_digits(text: &mut String, number: usize) -> Pushed
    ensures { Adds result text.old text.new (decimal number) }
{
    let mut buffer = Buffer::new();
    text.push_str(buffer.format(number))
}

pub(crate) fn push_signed(text: &mut String, number: i64) -> Pushed
    ensures { Adds result text.old text.new (signed_decimal number) }
{
    let mut buffer = Buffer::new();
    text.push_str(buffer.format(number))
}
