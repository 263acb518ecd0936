// The lines of a text for C.

ghost use Rattle.std.specs.Prelude.{◌≡◌};
ghost use Rattle.text_lines.specs.Line.{line_part};
ghost use Rattle.capi.specs.Lines.{line_figures};

// Finds the offset and the length of line n of a text, counted from 0.
#[unsafe(no_mangle)]
pub extern "C" fn krakobran_text_line(text: &[u8], n: u64, part: &mut [u64; 2])
    ensures { part.new ≡ line_figures (line_part n text.now) }
{
    let found = text_lines::line_part(text, n as usize);
    *part = [found.start as u64, found.length as u64];
}
