//! Lines of white space, which are passed over.

ghost use Rattle.std.specs.Prelude.{◌≡◌};
ghost use Rattle.elasticlunr_job_format.specs.Lines.{is_blank, is_space};

/// Whether a byte is white space of JSON: a space, a tab, a carriage return or a line feed.
pub fn is_space(byte: u8) -> bool
    ensures { result ≡ is_space byte }
{
    byte == b' ' || byte == b'\t' || byte == b'\r' || byte == b'\n'
}

/// Whether a line has no character but white space.
pub fn is_blank(line: &[u8]) -> bool
    ensures { result ≡ is_blank line.now }
{
    line.iter().all(|byte| is_space(*byte))
}
