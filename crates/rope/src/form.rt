//! Images whose bytes are taken in another form than `agcws asm` writes.

ghost use Rattle.std.specs.Prelude.{◌≡◌, ◌+◌, ◌*◌, ◌/◌, ◌%◌, true};
ghost use Rattle.words.specs.Devices.{failures_after};
ghost use Rattle.rope.specs.Forms.{high_in, low_in, reordered, taken};
ghost use Rattle.rope.specs.FormSteps.{left_in, TakesNext};

use std::io;
use std::marker::Model;
use words::Read;

/// How the two bytes of each word of an image are taken.
#[derive(Clone, Copy, PartialEq, Eq, Debug, Drop)]
pub enum Form {
    /// As they stand.
    AsWritten,
    /// With 0 for the lowest bit, so that each two are those of a word in version 1.
    ParityIgnored,
    /// With the parity bit, which stands below the highest one, moved to the lowest place: each two become those of a
    /// word in version 2.
    Hardware,
    /// So, but with 0 for the lowest bit.
    HardwareParityIgnored,
}

impl Form {
    // The two bytes of a word, as they are taken.
    fn pair(self, high: u8, low: u8) -> (u8, u8)
        ensures high { result.0 ≡ high_in self high low }
        ensures low { result.1 ≡ low_in self high low }
    {
        match self {
            Form::AsWritten => (high, low),
            Form::ParityIgnored => (high, low / 2 * 2),
            Form::Hardware => reordered(high, low),
            Form::HardwareParityIgnored => {
                let (first, second) = reordered(high, low);
                (first, second / 2 * 2)
            }
        }
    }
}

// Two bytes with the bit below their highest one as the lowest, where the others move up by one.
fn reordered(high: u8, low: u8) -> (u8, u8)
    ensures high { result.0 ≡ reordered (0o400 * high + low) / 0o400 }
    ensures low { result.1 ≡ reordered (0o400 * high + low) % 0o400 }
{
    let bits = u16::from_be_bytes([high, low]);
    let moved = bits / 0o100000 * 0o100000 + bits % 0o40000 * 2 + bits / 0o40000 % 2;
    let [first, second] = moved.to_be_bytes();
    (first, second)
}

// A byte that was read before it was asked for.
#[derive(Clone, Copy, Drop)]
enum Held {
    // None.
    Nothing,
    // The first of two, as it stands.
    High(u8),
    // The second of two, as it is taken.
    Low(u8),
}

/// A reader that takes the bytes of its device, two by two, in a form.
#[derive(Drop)]
pub struct InForm<R: Read> {
    device: R,
    form: Form,
    held: Held,
}

impl<R: Read> Model for InForm<R> {
    ghost use Rattle.words.specs.Memory.{Source};
    ghost use Rattle.rope.specs.FormSteps.{left_in};

    ghost Value = { Source };

    ghost view = { λ r. record { left = left_in r.form r.held (R.left r.device); failures = R.failures r.device } };
}

impl<R: Read> InForm<R> {
    /// A reader of what a device has left, which reads nothing yet.
    pub fn new(device: R, form: Form) -> InForm<R>
        ensures left { result.left ≡ taken form (R.left device) }
        ensures failures { result.failures ≡ R.failures device }
    {
        InForm {
            device,
            form,
            held: Held::Nothing,
        }
    }
}

impl<R: Read> Read for InForm<R> {
    ghost told = { R.told };

    ghost left = { λ r. r.left };

    ghost failures = { λ r. r.failures };

    fn read(&mut self, buf: &mut [u8]) -> io::Result<usize> {
        if let (Form::AsWritten, Held::Nothing) = (self.form, self.held) {
            return self.device.read(buf);
        }
        if buf.is_empty() {
            return Ok(0);
        }
        match next(&mut self.device, self.form, &mut self.held)? {
            Some(byte) => {
                buf[0] = byte;
                Ok(1)
            }
            None => Ok(0),
        }
    }

    #[tactic(auto, using(crate::proofs::FormLaws::as_written))]
    fn ready(&self) -> &[u8] {
        match (self.form, self.held) {
            (Form::AsWritten, Held::Nothing) => self.device.ready(),
            _ => b"",
        }
    }

    #[tactic(auto, using(crate::proofs::FormLaws::as_written))]
    fn pass(&mut self, count: usize) -> bool {
        match (self.form, self.held) {
            (Form::AsWritten, Held::Nothing) => self.device.pass(count),
            _ => false,
        }
    }
}

// The next byte, where one is left.
fn next<R: Read>(device: &mut R, form: Form, held: &mut Held) -> io::Result<Option<u8>>
    ensures byte { R.told ≡ true → TakesNext (left_in form held.old (R.left device.old))
        (left_in form held.new (R.left device.new)) result }
    ensures failures { R.failures device.new ≡ failures_after (R.failures device.old) result }
{
    match *held {
        Held::Low(low) => {
            *held = Held::Nothing;
            Ok(Some(low))
        }
        Held::High(high) => first_of_two(device, form, held, high),
        Held::Nothing => match device_byte(device)? {
            Some(high) => first_of_two(device, form, held, high),
            None => Ok(None),
        },
    }
}

// The first of two bytes as it is taken, or the last one alone.
fn first_of_two<R: Read>(
    device: &mut R,
    form: Form,
    held: &mut Held,
    high: u8,
) -> io::Result<Option<u8>>
    ensures byte { R.told ≡ true → TakesNext (left_in form (Held.High high) (R.left device.old))
        (left_in form held.new (R.left device.new)) result }
    ensures failures { R.failures device.new ≡ failures_after (R.failures device.old) result }
{
    *held = Held::High(high);
    match device_byte(device)? {
        Some(low) => {
            let (first, second) = form.pair(high, low);
            *held = Held::Low(second);
            Ok(Some(first))
        }
        None => {
            *held = Held::Nothing;
            Ok(Some(high))
        }
    }
}

// The next byte of a device, where one is left.
fn device_byte<R: Read>(device: &mut R) -> io::Result<Option<u8>>
    ensures byte { R.told ≡ true → TakesNext (R.left device.old) (R.left device.new) result }
    ensures failures { R.failures device.new ≡ failures_after (R.failures device.old) result }
{
    let mut byte = [0];
    match device.read(&mut byte)? {
        0 => Ok(None),
        _ => Ok(Some(byte[0])),
    }
}
