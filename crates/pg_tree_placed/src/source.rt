//! What the text of a step is made of.

ghost use Rattle.std.specs.Prelude.{◌≡◌, ◌∷◌, ◌-◌, ◌<◌, [], false, length, map, take, drop, is_err, IfOk, IfSome};
ghost use Rattle.json.specs.Print.{escape};
ghost use Rattle.pg_tree_placed.specs.Made.{text_between};
ghost use Rattle.pg_tree_placed.specs.Named.{label_at};
ghost use Rattle.pg_tree_placed.specs.Written.{closing};
ghost use Rattle.pg_tree_placed.specs.Writing.{AreClosings, IsPut, closing_text};

use crate::block::{AT_ONCE, Block, Stopped};
use crate::characters::plain_byte;
use pg_tree::{Label, Meter, push_quoted};
use std::alloc::{AllocError, Global};
use std::io::Write;

/// The closing text of a label's nodes. Behind its bytes are others, so that as many of each can be copied.
#[derive(Drop)]
pub(crate) struct Closing {
    pub(crate) bytes: Vec<u8>,
    pub(crate) len: usize,
}

/// The text over which the trees stand, the labels, and the closing text of each label's nodes.
#[derive(Clone, Copy)]
pub(crate) struct Source<'a> {
    pub(crate) text: &'a [char],
    pub(crate) labels: &'a [Label],
    pub(crate) closings: &'a [Closing],
}

impl Source<'_> {
    /// Pushes the closing text of a node with the label of this number.
    #[inline(always)]
    pub(crate) fn push_closing<W: Write>(
        &self,
        number: usize,
        block: &mut Block,
        writer: &mut Meter<W>,
    ) -> Result<(), Stopped>
        requires closings { AreClosings self.now }
        requires well { writer.old.failed ≡ false }
        ensures failed { writer.new.failed ≡ is_err result }
        ensures so { IsPut result (W.contents writer.old.inner) block.old (W.contents writer.new.inner) block.new (closing (label_at self.now.labels.now number)) }
    {
        if number < self.closings.len() {
            push_written(self.closing(number), block, writer)
        } else {
            push_nameless(block, writer)
        }
    }

    /// The closing text of a node with the label of this number.
    fn closing(&self, number: usize) -> &Closing
        requires closings { AreClosings self.now }
        requires there { number < length self.now.closings.now }
        ensures { closing_text result.now ≡ closing (label_at self.now.labels.now number) }
    {
        let closings = self.closings;
        &closings[number]
    }

    /// The byte of a leaf that is one character that stands for itself.
    pub(crate) fn plain_leaf(&self, from: u32, to: u32) -> Option<u8>
        ensures { IfSome result (λ byte. escape (text_between self.now.text.now from to) ≡ byte ∷ []) }
    {
        let place = from as usize;
        if place >= self.text.len() || to as usize != place + 1 {
            return None;
        }
        plain_byte(self.text[place])
    }

    /// The characters between two places.
    pub(crate) fn between(&self, from: u32, to: u32) -> &[char]
        ensures { result.now ≡ take (to - from) (drop from self.now.text.now) }
    {
        let from = from as usize;
        let rest = &self.text[from.min(self.text.len())..];
        &rest[..(to as usize).saturating_sub(from).min(rest.len())]
    }
}

/// Pushes a closing text.
#[inline(always)]
fn push_written<W: Write>(
    closing: &Closing,
    block: &mut Block,
    writer: &mut Meter<W>,
) -> Result<(), Stopped>
    requires { writer.old.failed ≡ false }
    ensures failed { writer.new.failed ≡ is_err result }
    ensures so { IsPut result (W.contents writer.old.inner) block.old (W.contents writer.new.inner) block.new (closing_text closing.now) }
{
    let bytes = closing.bytes.as_slice();
    if bytes.len() < AT_ONCE || closing.len > AT_ONCE {
        return push_long(closing, block, writer);
    }
    block.push_first(bytes, closing.len, writer)
}

/// The same for texts of any length.
#[inline(never)]
fn push_long<W: Write>(
    closing: &Closing,
    block: &mut Block,
    writer: &mut Meter<W>,
) -> Result<(), Stopped>
    requires { writer.old.failed ≡ false }
    ensures failed { writer.new.failed ≡ is_err result }
    ensures so { IsPut result (W.contents writer.old.inner) block.old (W.contents writer.new.inner) block.new (closing_text closing.now) }
{
    let bytes = closing.bytes.as_slice();
    block.push(&bytes[..closing.len.min(bytes.len())], writer)
}

/// Pushes the closing text of a node whose label isn't there.
#[inline(never)]
fn push_nameless<W: Write>(block: &mut Block, writer: &mut Meter<W>) -> Result<(), Stopped>
    requires { writer.old.failed ≡ false }
    ensures failed { writer.new.failed ≡ is_err result }
    ensures so { IsPut result (W.contents writer.old.inner) block.old (W.contents writer.new.inner) block.new (closing []) }
{
    block.push(b"],\"node\":\"\"}", writer)
}

/// The closing texts of nodes with these labels, so that each label is written in JSON once.
pub(crate) fn closings(alloc: Global, labels: &[Label]) -> Result<Vec<Closing>, AllocError>
    ensures { IfOk result (λ texts. map closing_text texts.items ≡ map closing labels.now) }
{
    let mut texts = Vec::with_capacity(alloc, labels.len())?;
    for label in labels {
        texts.push(closing_of(alloc, label.as_str())?)?;
    }
    Ok(texts)
}

/// The closing text of a node with this label. It takes more bytes than are copied at once.
fn closing_of(alloc: Global, label: &str) -> Result<Closing, AllocError>
    ensures { IfOk result (λ c. closing_text c ≡ closing label.now) }
{
    let mut bytes = bytes_of(alloc, label)?;
    let len = bytes.len();
    bytes.resize(len.max(AT_ONCE + 1), 0)?;
    Ok(Closing { bytes, len })
}

/// The bytes of that text.
fn bytes_of(alloc: Global, label: &str) -> Result<Vec<u8>, AllocError>
    ensures { IfOk result (λ text. text.items ≡ closing label.now) }
{
    let mut text = Vec::from_slice(alloc, b"],\"node\":")?;
    push_quoted(label.as_bytes(), &mut text)?;
    text.extend_from_slice(b"}")?;
    Ok(text)
}
