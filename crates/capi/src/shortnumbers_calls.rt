// Short sequence numbers for C: the full numbers of lists, and the step of a lent receiver.

ghost use Rattle.std.specs.Prelude.{◌≡◌};
ghost use Rattle.shortnumbers.specs.Number.{range_of};
ghost use Rattle.shortnumbers.specs.Lists.{FilledTo};
ghost use Rattle.shortnumbers.specs.Steps.{short_step};
ghost use Rattle.capi.specs.Outcomes.{noted_figures};

use crate::outcomes::outcome_told;
use receiver::Receiver;

// The full numbers of short ones of 8 bits, of K sent packets.
#[unsafe(no_mangle)]
pub extern "C" fn krakobran_full_numbers_8(
    sent: u32,
    shorts: &[u16],
    times: &[u64],
    numbers: &mut [u32],
) -> u64
    ensures { FilledTo (range_of 8) sent shorts.now times.now numbers.old result numbers.new }
{
    shortnumbers::full_numbers_8(sent, shorts, times, numbers) as u64
}

// The full numbers of short ones of 10 bits.
#[unsafe(no_mangle)]
pub extern "C" fn krakobran_full_numbers_10(
    sent: u32,
    shorts: &[u16],
    times: &[u64],
    numbers: &mut [u32],
) -> u64
    ensures { FilledTo (range_of 10) sent shorts.now times.now numbers.old result
        numbers.new }
{
    shortnumbers::full_numbers_10(sent, shorts, times, numbers) as u64
}

// Steps a receiver with a short number of 8 bits.
#[unsafe(no_mangle)]
pub extern "C" fn krakobran_receiver_step_8(
    receiver: &mut Receiver,
    short: u16,
    time: u64,
    noted: &mut [u64; 4],
) -> u64
    ensures { (result ≡ (short_step (range_of 8) receiver.old short time).outcome.refusal)
        × ((noted.new ≡ noted_figures (short_step (range_of 8) receiver.old short time).outcome.noted)
        × (receiver.new ≡ (short_step (range_of 8) receiver.old short time).state)) }
{
    outcome_told(shortnumbers::step_8_in_place(receiver, short, time), noted)
}

// Steps a receiver with a short number of 10 bits.
#[unsafe(no_mangle)]
pub extern "C" fn krakobran_receiver_step_10(
    receiver: &mut Receiver,
    short: u16,
    time: u64,
    noted: &mut [u64; 4],
) -> u64
    ensures { (result ≡ (short_step (range_of 10) receiver.old short time).outcome.refusal)
        × ((noted.new ≡ noted_figures (short_step (range_of 10) receiver.old short time).outcome.noted)
        × (receiver.new ≡ (short_step (range_of 10) receiver.old short time).state)) }
{
    outcome_told(shortnumbers::step_10_in_place(receiver, short, time), noted)
}
