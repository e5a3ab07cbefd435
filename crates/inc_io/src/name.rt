ghost use Rattle.std.specs.Prelude.{◌≡◌, List, ℕ, IfOk, IfSome, is_some};
ghost use Rattle.std.specs.List.{list_all, list_any};
ghost use Rattle.std.specs.Str.{is_utf8, bytes_eq};
ghost use Rattle.std.specs.String.{string_bytes};
ghost use Rattle.inc_io.specs.Names.{IsName, is_name, is_name_byte, is_here, is_above, without};

use crate::OutOfMemory;
use inc_bytes::Rows;
use std::alloc::Global;
use std::marker::Model;

/// A file's name: 1 to 255 bytes of UTF-8 without a slash, a blank or a control byte, and neither `.` nor `..`.
#[derive(Drop)]
pub struct Name {
    text: String,
}

impl Model for Name {
    ghost Value = { List ℕ };

    ghost view = { λ n. string_bytes n.text };

    ghost invariant = { λ n. IsName (string_bytes n.text) };
}

impl Name {
    /// The name with these bytes. There is none exactly where they are no name.
    #[tactic(auto, using(crate::proofs::NameLemmas::no_text_no_name))]
    pub fn of(alloc: Global, bytes: &[u8]) -> Result<Option<Name>, OutOfMemory>
        ensures named { IfOk result (λ name. is_some name ≡ is_name bytes.now) }
        ensures value { IfOk result (λ name. IfSome name (λ name. name ≡ bytes.now)) }
    {
        let Ok(text) = std::str::from_utf8(bytes) else {
            return Ok(None);
        };
        if !is_a_name(text.as_bytes()) {
            return Ok(None);
        }
        Ok(Some(Name {
            text: String::from_str(alloc, text)?,
        }))
    }

    /// A second name with the same bytes.
    pub fn copy(&self, alloc: Global) -> Result<Name, OutOfMemory>
        ensures value { IfOk result (λ name. name ≡ self.now) }
    {
        Ok(Name {
            text: String::from_str(alloc, self.text.as_str())?,
        })
    }

    pub fn as_slice(&self) -> &[u8]
        ensures value { result.now ≡ self.now }
        ensures named { IsName self.now }
    {
        self.text.as_bytes()
    }

    pub fn as_str(&self) -> &str
        ensures value { result.now ≡ self.now }
    {
        self.text.as_str()
    }
}

/// Whether a file may have this name.
#[tactic(auto, unfolding(crate::specs::Names::is_name))]
fn is_a_name(bytes: &[u8]) -> bool
    ensures value { result ≡ is_name bytes.now }
{
    let some = bytes.len() >= 1;
    let short = bytes.len() <= 255;
    let plain = has_name_bytes(bytes);
    let text = is_text(bytes);
    let here = is_here(bytes);
    let above = is_above(bytes);
    some & short & plain & text & !here & !above
}

fn has_name_bytes(bytes: &[u8]) -> bool
    ensures value { result ≡ list_all is_name_byte bytes.now }
{
    bytes.iter().all(|byte| *byte >= 0x21 && *byte != b'/')
}

#[tactic(auto, using(crate::proofs::NameLemmas::utf8_tests))]
fn is_text(bytes: &[u8]) -> bool
    ensures value { result ≡ is_utf8 bytes.now }
{
    std::str::from_utf8(bytes).is_ok()
}

fn is_here(bytes: &[u8]) -> bool
    ensures value { result ≡ is_here bytes.now }
{
    bytes == b".".as_slice()
}

fn is_above(bytes: &[u8]) -> bool
    ensures value { result ≡ is_above bytes.now }
{
    bytes == b"..".as_slice()
}

/// A list of names.
pub type NameList = Rows<Name>;

/// Takes this name out of the list, wherever it stands, and gives it back where it was there.
pub fn remove_name(names: &mut NameList, name: &Name) -> Option<Name>
    ensures value { names.new ≡ without name.now names.old }
    ensures found { is_some result ≡ list_any (bytes_eq name.now) names.old }
    ensures same { IfSome result (λ removed. removed ≡ name.now) }
{
    let mut removed = None;
    let mut at = 0;
    while at < names.len() {
        if is_same(name.as_str(), names.as_slice()[at].as_str()) {
            removed = Some(names.remove(at));
        } else {
            at += 1;
        }
    }
    removed
}

/// Whether this name is in the list.
pub fn has_name(names: &[Name], name: &Name) -> bool
    ensures value { result ≡ list_any (bytes_eq name.now) names.now }
{
    names
        .iter()
        .any(|other| is_same(name.as_str(), other.as_str()))
}

fn is_same(name: &str, other: &str) -> bool
    ensures value { result ≡ bytes_eq name.now other.now }
{
    name == other
}
