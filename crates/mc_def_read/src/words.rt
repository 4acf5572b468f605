// Names in order, of which few are compared one by one.
ghost use Rattle.mc_c_syntax.specs.Ast.Names.{is_same};
ghost use Rattle.mc_def_read.specs.Words.{behind, words_of};
ghost use Rattle.std.specs.Prelude.{◌≡◌, ◌++◌, ◌∷◌, [], position, length, IfOk, IfSome, OnErr, OnOk};

use mc_base::text::Text;
use mc_c_syntax::names::Names;
use std::alloc::{AllocError, Global};
use std::marker::Model;

/// How many names are compared one by one.
pub const FEW: usize = 8;

/// Names in order: few, or found by hash.
#[derive(Drop)]
pub enum Order<'a> {
    Few(Vec<&'a Text>),
    Many(Names<'a>),
}

/// Names in order, of which some may be the same.
pub struct Words<'a> {
    order: Order<'a>,
}

/// Drops its parts. What holds one calls this.
impl Drop for Words<'_> {
    fn drop(self) {
        let Words { order } = self;
        drop(order);
    }
}

impl<'a> Model for Words<'a> {
    ghost use Rattle.std.specs.Prelude.{List, ℕ};
    ghost use Rattle.mc_def_read.specs.Words.{words_of};

    ghost Value = { List (List ℕ) };

    ghost view = { λ w. words_of w.order };
}

// The first place of a name, from 0 on.
fn place_among(words: &[&Text], name: &Text) -> Option<usize>
    ensures { result ≡ position (λ word. is_same word.now name.now) words.now }
{
    words
        .iter()
        .position(|word| word.as_slice() == name.as_slice())
}

// The same names, and one more, found by hash.
fn hashed<'a>(alloc: Global, words: &[&'a Text], last: &'a Text) -> Result<Names<'a>, AllocError>
    ensures { IfOk result (λ names. names ≡ behind words.now ++ last.now ∷ []) }
{
    let mut names = Names::new(alloc);
    for word in words {
        names.push(*word)?;
    }
    names.push(last)?;
    Ok(names)
}

impl<'a> Order<'a> {
    fn len(&self) -> usize
        ensures { result ≡ length (words_of self.now) }
    {
        match self {
            Order::Few(words) => words.len(),
            Order::Many(names) => names.len(),
        }
    }

    // The first place of a name, from 0 on.
    fn place(&self, name: &Text) -> Option<usize>
        ensures { result ≡ position (λ word. is_same word name.now) (words_of self.now) }
    {
        match self {
            Order::Few(words) => place_among(words.as_slice(), name),
            Order::Many(names) => names.place(name),
        }
    }

    // All of them and one more, found by hash, where they are as many as are compared.
    fn grown(&self, alloc: Global, name: &'a Text) -> Result<Option<Names<'a>>, AllocError>
        ensures { IfOk result (λ grown. IfSome grown (λ names. names ≡ words_of self.now ++ name.now ∷ [])) }
    {
        match self {
            Order::Few(words) if words.len() >= FEW => {
                Ok(Some(hashed(alloc, words.as_slice(), name)?))
            }
            Order::Few(_) | Order::Many(_) => Ok(None),
        }
    }

    // Adds a name at the end. Without memory the names stay.
    fn add(&mut self, name: &'a Text) -> Result<(), AllocError>
        ensures err { OnErr result (words_of self.new ≡ words_of self.old) }
        ensures ok { OnOk result (words_of self.new ≡ words_of self.old ++ name.now ∷ []) }
    {
        match self {
            Order::Few(words) => {
                words.push(name)?;
                Ok(())
            }
            Order::Many(names) => names.push(name),
        }
    }
}

impl<'a> Words<'a> {
    /// No names.
    pub fn new(alloc: Global) -> Words<'a>
        ensures { result ≡ [] }
    {
        Words {
            order: Order::Few(Vec::new(alloc)),
        }
    }

    /// How many names there are.
    pub fn len(&self) -> usize
        ensures { result ≡ length self.now }
    {
        self.order.len()
    }

    /// The first place of a name, from 0 on.
    pub fn place(&self, name: &Text) -> Option<usize>
        ensures { result ≡ position (λ word. is_same word name.now) self.now }
    {
        self.order.place(name)
    }

    /// Adds a name at the end. Without memory the names stay.
    pub fn push(&mut self, alloc: Global, name: &'a Text) -> Result<(), AllocError>
        ensures err { OnErr result (self.new ≡ self.old) }
        ensures ok { OnOk result (self.new ≡ self.old ++ name.now ∷ []) }
    {
        match self.order.grown(alloc, name)? {
            Some(names) => {
                self.order = Order::Many(names);
                Ok(())
            }
            None => self.order.add(name),
        }
    }
}
