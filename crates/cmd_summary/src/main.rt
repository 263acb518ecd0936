// The summary program: reads a sample on standard input and prints its summary on standard output, or one line if the input is refused.
// With the argument `json` the summary is a JSON object. With `all` the other figures of the whole sample follow it. No sample has over
// 57,414 octets, so the first 57,415 octets decide about longer input.
#![tactic(auto)]

ghost use Rattle.listing.specs.Lines.{refused_line};
ghost use Rattle.sample.specs.Decode.{decode, decoded_refusal};
ghost use Rattle.sample.specs.Output.{Output};
ghost use Rattle.cmd_summary.specs.Shown.{form_text, shown_text};

use program::{SAMPLE_ROOM, argument_is, read_input, write_first};
use rfc4737::refusal::{NONE, Refusal};
use sample::WriteAnswer;
use std::io;
use std::rt::Env;
use summary::ALL_OCTETS;

// The form of the summary.
#[derive(Clone, Copy)]
enum Form {
    Text,
    Json,
    All,
}

// Writes the line of a refused input to the start of `out`. The table's program has its own, which has room for the line and returns its
// length. The answer here is one of `summary`, with 8 if the line does not fit.
fn refuse(refusal: u32, out: &mut [u8]) -> WriteAnswer
    ensures { Output 0 (refused_line refusal) out.old result out.new }
{
    let n = listing::put_refused(out, 0, refusal);
    if out.len() < n {
        return WriteAnswer::from(Err(Refusal::OutputShort));
    }
    WriteAnswer::from(Ok(n as u32))
}

// Writes the summary of a sample to the start of `out`.
fn write_form(form: Form, input: &[u8], out: &mut [u8]) -> WriteAnswer
    ensures { Output (decoded_refusal (decode input.now)) (form_text form (decode input.now))
        out.old result out.new }
{
    match form {
        Form::Text => summary::write(input, out),
        Form::Json => summary::write_json(input, out),
        Form::All => summary::write_all(input, out),
    }
}

// Writes the text of an input to the start of `out`.
fn summarize(form: Form, input: &[u8], out: &mut [u8]) -> WriteAnswer
    ensures { Output 0 (shown_text form (decode input.now)) out.old result out.new }
{
    let own = sample::check(input).refusal;
    if own != NONE {
        return refuse(own, out);
    }
    write_form(form, input, out)
}

// Returns the form that the argument names; text for any other word.
fn asked_form(rt: &impl Env) -> Form {
    if argument_is(rt, 1, b"json") {
        return Form::Json;
    }
    if argument_is(rt, 1, b"all") {
        return Form::All;
    }
    Form::Text
}

// Reads the argument and the whole input, and prints its text.
fn main(rt: HostRuntime) -> io::Result<()> {
    let mut input = [0u8; SAMPLE_ROOM];
    let mut out = [0u8; ALL_OCTETS];
    let length = summarize(asked_form(&rt), read_input(&rt, &mut input)?, &mut out).length as usize;
    write_first(&rt, &out, length)?;
    Ok(())
}
