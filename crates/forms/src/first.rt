// The lines of a text, one after another.
ghost use Rattle.forms.specs.Lines.{FirstLine};

// The first line without its line feed, and what follows it.
pub fn first_line(text: &[u8]) -> (&[u8], &[u8])
    ensures { FirstLine text.now result.0.now result.1.now }
{
    for (place, byte) in text.iter().enumerate() {
        if *byte == b'\n' {
            return (&text[..place], &text[place + 1..]);
        }
    }
    (text, &[])
}
