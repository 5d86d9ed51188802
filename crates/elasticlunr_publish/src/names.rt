//! The names of folders of pieces, and of what is being written.
ghost use Rattle.std.specs.Prelude.{◌≡◌, ◌≢◌, ◌↔◌, ◌++◌, string_bytes, IfOk, IfSome, IfNone, IsTrue};
ghost use Rattle.std.specs.Prelude.{decimal};
ghost use Rattle.std.specs.List.{list_all};
ghost use Rattle.elasticlunr_publish.specs.Names.{is_digit, is_hexadecimal, IsFolderName};
ghost use Rattle.elasticlunr_publish.specs.Names.{Bytes, HasFolder, IsAround, IsTemporary, Lacks, numbered};

use std::alloc::{AllocError, Global};

/// How many digits the name of a folder of pieces has.
const DIGITS: usize = 16;

/// Whether it is the name of a folder of pieces.
pub fn is_folder_name(name: &str) -> bool
    ensures { IsTrue result ↔ IsFolderName name.now }
{
    match name.as_bytes().strip_prefix(b"pieces-".as_slice()) {
        Some(digits) => digits.len() == DIGITS && are_hexadecimal(digits),
        None => false,
    }
}

/// Whether it is the name of what is being written for this one.
pub fn is_temporary(base: &str, name: &str) -> bool
    ensures { IsTrue result ↔ IsTemporary base.now name.now }
{
    match number_in(base.as_bytes(), name.as_bytes()) {
        Some(digits) => !digits.is_empty() && are_digits(digits),
        None => false,
    }
}

/// What stands between a name with a point and `.new`.
fn number_in<'a>(base: &[u8], name: &'a [u8]) -> Option<&'a [u8]>
    ensures some { IfSome result (λ number. name.now ≡ numbered base.now number.now) }
    ensures none { IfNone result ((number : Bytes) → name.now ≢ numbered base.now number) }
{
    let rest = after(base, name)?;
    let ended = after(b".".as_slice(), rest)?;
    before(b".new".as_slice(), ended)
}

/// What stands after a beginning.
fn after<'a>(beginning: &[u8], bytes: &'a [u8]) -> Option<&'a [u8]>
    ensures some { IfSome result (λ rest. bytes.now ≡ beginning.now ++ rest.now) }
    ensures none { IfNone result ((rest : Bytes) → bytes.now ≢ beginning.now ++ rest) }
{
    bytes.strip_prefix(beginning)
}

/// What stands before an end.
fn before<'a>(end: &[u8], bytes: &'a [u8]) -> Option<&'a [u8]>
    ensures some { IfSome result (λ rest. bytes.now ≡ rest.now ++ end.now) }
    ensures none { IfNone result ((rest : Bytes) → bytes.now ≢ rest ++ end.now) }
{
    bytes.strip_suffix(end)
}

/// The name of what is being written for this one, with a number.
pub fn temporary_name(alloc: Global, base: &str, number: u64) -> Result<String, AllocError>
    ensures { IfOk result (λ name. string_bytes name ≡ numbered base.now (decimal number)) }
{
    format!(in alloc; "{base}.{number}.new")
}

/// The folder of pieces that the text of a head names; `None` where it names none.
pub fn folder_in(head: &str) -> Option<&str>
    ensures some { IfSome result (λ name. HasFolder head.now name.now × IsFolderName name.now) }
    ensures none { IfNone result ((name : Bytes) → HasFolder head.now name → IsFolderName name → ⊥) }
{
    let (_, after) = split_once(head, "\"folder\":\"")?;
    let (name, _) = split_once(after, "\"")?;
    if is_folder_name(name) {
        Some(name)
    } else {
        None
    }
}

/// What stands before the first place of a part, and after it.
fn split_once<'a>(text: &'a str, part: &str) -> Option<(&'a str, &'a str)>
    ensures some { IfSome result (λ both. IsAround part.now text.now both.0.now both.1.now) }
    ensures none { IfNone result (Lacks part.now text.now) }
{
    text.split_once(part)
}

/// Whether all bytes are hexadecimal digits.
fn are_hexadecimal(bytes: &[u8]) -> bool
    ensures { result ≡ list_all is_hexadecimal bytes.now }
{
    bytes.iter().all(|byte| is_hexadecimal(*byte))
}

/// Whether all bytes are decimal digits.
fn are_digits(bytes: &[u8]) -> bool
    ensures { result ≡ list_all is_digit bytes.now }
{
    bytes.iter().all(|byte| is_digit(*byte))
}

fn is_digit(byte: u8) -> bool
    ensures { result ≡ is_digit byte }
{
    b'0' <= byte && byte <= b'9'
}

fn is_hexadecimal(byte: u8) -> bool
    ensures { result ≡ is_hexadecimal byte }
{
    is_digit(byte) || (b'a' <= byte && byte <= b'f')
}
