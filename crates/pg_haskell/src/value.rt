//! Values as parsers.
//!
//! A value stands in preorder. Its forms are put one after another, and what is to come behind their parts is kept on a list, so that nothing
//! recurses, however deep it is. Where trees are dropped anyway, as in `skip`, the library's own parsers stand alone.

use crate::builders::{put_builder, put_built, put_link};
use crate::class::{put_class, put_reader};
use crate::helpers::Helper;
use crate::imports::Library;
use crate::literal::push_string;
use crate::names::Named;
use crate::page::Page;
use crate::tightness::{Tightness, Wanted, tightness_of};
use pg_file_items::{ClassForm, OneForm, PlacedForm, SomeForm, TwoForm, WrittenClass, WrittenForm};
use pg_grammar_form::Side;
use std::alloc::AllocError;
use std::mem::replace;

/// How many columns the line of a rule has at most, unless its outermost list is broken into lines.
const WIDTH: usize = 100;

/// What is still to be put of a value.
#[derive(Clone, Copy)]
enum Todo<'i> {
    /// A whole value, in parentheses where it isn't so tight.
    Value(Tightness, Wanted),
    Text(&'static str),
    /// The comma of the outermost list, before which a line may end.
    Comma,
    /// A string as Haskell reads it.
    Literal(&'i [char]),
    /// A builder, as a function of a symbol and the trees.
    Builder(&'i [char]),
    /// A builder with a chain's symbol, likewise.
    Link(&'i [char], &'i [char]),
}

/// A value that is being put.
#[derive(Drop)]
struct Writing<'i> {
    rest: &'i [PlacedForm],
    todo: Vec<Todo<'i>>,
    /// Whether its outermost list was met.
    is_listed: bool,
    /// Whether lines end before the commas of that.
    is_broken: bool,
}

/// Puts the value of a rule behind its name: on its line, or on lines for the parts of its outermost list if that is too long.
pub(crate) fn put_value(page: &mut Page, forms: &[PlacedForm]) -> Result<(), AllocError> {
    let before = replace(&mut page.text, String::new(page.alloc));
    put_forms(page, forms, false)?;
    if page.text.len() > WIDTH {
        page.text.clear();
        put_forms(page, forms, true)?;
    }
    let value = replace(&mut page.text, before);
    page.put(value.as_str())
}

/// Puts a value.
fn put_forms(page: &mut Page, forms: &[PlacedForm], is_broken: bool) -> Result<(), AllocError> {
    let mut writing = Writing {
        rest: forms,
        todo: Vec::new(page.alloc),
        is_listed: false,
        is_broken,
    };
    writing
        .todo
        .push(Todo::Value(Tightness::Labelled, Wanted::Trees))?;
    for _ in 0..u64::MAX {
        let Some(next) = writing.todo.pop() else {
            break;
        };
        writing.put(page, next)?;
    }
    Ok(())
}

impl<'i> Writing<'i> {
    /// Puts what is next.
    fn put(&mut self, page: &mut Page, next: Todo<'i>) -> Result<(), AllocError> {
        match next {
            Todo::Value(most, wanted) => self.put_next(page, most, wanted),
            Todo::Text(text) => page.put(text),
            Todo::Comma => page.put(if self.is_broken { "\n  , " } else { ", " }),
            Todo::Literal(characters) => push_string(&mut page.text, characters),
            Todo::Builder(name) => put_builder(page, name),
            Todo::Link(name, symbol) => put_link(page, name, symbol),
        }
    }

    /// Puts the next form, in parentheses where it isn't so tight.
    fn put_next(
        &mut self,
        page: &mut Page,
        most: Tightness,
        wanted: Wanted,
    ) -> Result<(), AllocError> {
        let Some((placed, after)) = self.rest.split_first() else {
            return Ok(());
        };
        self.rest = after;
        let form = &placed.form;
        if let WrittenForm::Seq(1) = form {
            return self.later(Todo::Value(most, wanted));
        }
        if tightness_of(form, wanted) > most {
            self.later(Todo::Text(")"))?;
            page.put("(")?;
        }
        self.put_form(page, form, wanted)
    }

    /// Notes what is to be put behind what is put now.
    fn later(&mut self, todo: Todo<'i>) -> Result<(), AllocError> {
        self.todo.push(todo)?;
        Ok(())
    }

    /// Puts the beginning of a form, and notes the rest.
    fn put_form(
        &mut self,
        page: &mut Page,
        form: &'i WrittenForm,
        wanted: Wanted,
    ) -> Result<(), AllocError> {
        match form {
            WrittenForm::OfClass(form, class) => put_of_class(page, *form, class, wanted),
            WrittenForm::String(characters) => put_text(page, characters.as_slice(), wanted),
            WrittenForm::Word(name) => put_word(page, name.as_slice(), wanted),
            WrittenForm::EndOfText => {
                page.put(if wanted == Wanted::Trees {
                    "[] <$ "
                } else {
                    ""
                })?;
                page.put_parsec("eof")
            }
            WrittenForm::Rule(name) => page.put_name(Named::Rule, name.as_slice()),
            WrittenForm::Seq(count) => self.put_sequence(page, *count, wanted),
            WrittenForm::OfSome(form, count) => self.put_of_some(page, *form, *count, wanted),
            WrittenForm::OfOne(form) => self.put_of_one(page, *form, wanted),
            WrittenForm::OfTwo(form) => self.put_of_two(page, *form, wanted),
            WrittenForm::Between => {
                self.argument(wanted)?;
                self.argument(Wanted::Nothing)?;
                self.argument(Wanted::Nothing)?;
                page.put_parsec("between")
            }
            WrittenForm::Chain {
                side,
                builder,
                symbol,
            } => {
                let link = Todo::Link(builder.as_slice(), symbol.as_slice());
                self.put_chain(page, *side, link)
            }
            WrittenForm::Expression {
                infix,
                prefix,
                postfix,
            } => {
                self.argument(Wanted::Trees)?;
                self.builder(postfix.as_slice())?;
                self.builder(prefix.as_slice())?;
                self.builder(infix.as_slice())?;
                page.put_helper(Helper::Expression)
            }
            WrittenForm::Build { builder, symbol } => {
                self.later(Todo::Value(Tightness::Application, Wanted::Trees))?;
                put_built(page, builder.as_slice(), symbol.as_slice())?;
                page.put(" <$> ")
            }
            WrittenForm::Label(message) => {
                page.imports.add(Library::Parsec, "(<?>)")?;
                self.later(Todo::Literal(message.as_slice()))?;
                self.later(Todo::Text(" <?> "))?;
                self.later(Todo::Value(Tightness::Mapped, wanted))
            }
        }
    }

    /// Notes a value as an argument.
    fn argument(&mut self, wanted: Wanted) -> Result<(), AllocError> {
        self.later(Todo::Value(Tightness::Atom, wanted))?;
        self.later(Todo::Text(" "))
    }

    /// Notes a builder as an argument.
    fn builder(&mut self, name: &'i [char]) -> Result<(), AllocError> {
        self.later(Todo::Builder(name))?;
        self.later(Todo::Text(" "))
    }

    /// Notes a list of so many values, and puts its bracket.
    fn put_list(
        &mut self,
        page: &mut Page,
        count: usize,
        wanted: Wanted,
    ) -> Result<(), AllocError> {
        let is_outermost = !self.is_listed;
        let is_broken = is_outermost && self.is_broken;
        self.is_listed = true;
        self.later(Todo::Text(if is_broken { "\n  ]" } else { "]" }))?;
        let comma = if is_outermost {
            Todo::Comma
        } else {
            Todo::Text(", ")
        };
        self.later_between(count, Todo::Value(Tightness::Labelled, wanted), comma)?;
        page.put(if is_broken { "\n  [ " } else { " [" })
    }

    /// Notes so many values, with the same between each two.
    fn later_between(
        &mut self,
        count: usize,
        value: Todo<'i>,
        between: Todo<'i>,
    ) -> Result<(), AllocError> {
        for number in 0..count {
            if number > 0 {
                self.later(between)?;
            }
            self.later(value)?;
        }
        Ok(())
    }

    /// Puts values one after another.
    fn put_sequence(
        &mut self,
        page: &mut Page,
        count: usize,
        wanted: Wanted,
    ) -> Result<(), AllocError> {
        match (count, wanted) {
            (0, Wanted::Trees) => page.put("return []"),
            (0, Wanted::Nothing) => page.put("return ()"),
            (_, Wanted::Trees) => {
                page.put("concat <$> sequence")?;
                self.put_list(page, count, Wanted::Trees)
            }
            (_, Wanted::Nothing) => self.later_between(
                count,
                Todo::Value(Tightness::Application, Wanted::Nothing),
                Todo::Text(" *> "),
            ),
        }
    }

    /// Puts a choice, or a form around values one after another.
    fn put_of_some(
        &mut self,
        page: &mut Page,
        form: SomeForm,
        count: usize,
        wanted: Wanted,
    ) -> Result<(), AllocError> {
        match form {
            SomeForm::Choice => {
                page.put_parsec("choice")?;
                return self.put_list(page, count, self.wanted_of_alternatives(count, wanted));
            }
            SomeForm::Try => page.put_parsec("try")?,
            SomeForm::Local => page.put_helper(Helper::Local)?,
        }
        if count == 1 {
            return self.argument(wanted);
        }
        self.later(Todo::Text(")"))?;
        page.put(" (")?;
        self.put_sequence(page, count, wanted)
    }

    /// What is wanted of the next values, which are alternatives and have one type: trees, unless all are strings or all are characters.
    fn wanted_of_alternatives(&self, count: usize, wanted: Wanted) -> Wanted {
        let are_strings = self
            .rest
            .iter()
            .take(count)
            .all(|it| matches!(it.form, WrittenForm::String(_)));
        let are_characters = self.rest.iter().take(count).all(|it| matches!(
            it.form,
            WrittenForm::OfClass(ClassForm::Satisfy, _)
        ));
        if are_strings || are_characters {
            wanted
        } else {
            Wanted::Trees
        }
    }

    /// Puts a form of one value.
    fn put_of_one(
        &mut self,
        page: &mut Page,
        form: OneForm,
        wanted: Wanted,
    ) -> Result<(), AllocError> {
        match form {
            OneForm::Many => self.put_repeated(page, "many", wanted),
            OneForm::Many1 => self.put_repeated(page, "many1", wanted),
            OneForm::Option => {
                self.argument(wanted)?;
                match wanted {
                    Wanted::Nothing => page.put_parsec("optional"),
                    Wanted::Trees => {
                        page.put_parsec("option")?;
                        page.put(" []")
                    }
                }
            }
            OneForm::Text => {
                self.argument(Wanted::Nothing)?;
                page.put_helper(Helper::Text)
            }
            OneForm::Skip => {
                self.argument(Wanted::Nothing)?;
                page.put_helper(Helper::Skip)
            }
        }
    }

    /// Puts a repetition of a value.
    fn put_repeated(
        &mut self,
        page: &mut Page,
        name: &'static str,
        wanted: Wanted,
    ) -> Result<(), AllocError> {
        self.argument(wanted)?;
        page.put(joining(wanted))?;
        page.put_parsec(name)
    }

    /// Puts a form of a value and a separator.
    fn put_of_two(
        &mut self,
        page: &mut Page,
        form: TwoForm,
        wanted: Wanted,
    ) -> Result<(), AllocError> {
        self.argument(Wanted::Nothing)?;
        self.argument(wanted)?;
        page.put(joining(wanted))?;
        page.put_parsec(match form {
            TwoForm::SepBy => "sepBy",
            TwoForm::SepBy1 => "sepBy1",
            TwoForm::EndBy => "endBy",
        })
    }

    /// Puts a chain, whose operand comes first.
    fn put_chain(&mut self, page: &mut Page, side: Side, link: Todo<'i>) -> Result<(), AllocError> {
        page.need(Helper::Link)?;
        self.later(Todo::Text(")"))?;
        self.argument(Wanted::Trees)?;
        self.later(link)?;
        self.later(Todo::Text(" "))?;
        self.later(Todo::Text(" (link"))?;
        self.argument(Wanted::Trees)?;
        page.put_parsec(match side {
            Side::Left => "chainl1",
            Side::Right => "chainr1",
        })
    }
}

/// What joins the trees of a repetition's rounds, where they are wanted.
fn joining(wanted: Wanted) -> &'static str {
    match wanted {
        Wanted::Trees => "concat <$> ",
        Wanted::Nothing => "",
    }
}

/// Puts what reads a string.
fn put_text(page: &mut Page, characters: &[char], wanted: Wanted) -> Result<(), AllocError> {
    if wanted == Wanted::Trees {
        page.put_helper(Helper::Leaf)?;
        page.put(" (")?;
    }
    page.put_parsec("string")?;
    page.put(" ")?;
    push_string(&mut page.text, characters)?;
    page.put(if wanted == Wanted::Trees { ")" } else { "" })
}

/// Puts what reads a word.
fn put_word(page: &mut Page, name: &[char], wanted: Wanted) -> Result<(), AllocError> {
    if wanted == Wanted::Trees {
        page.put_helper(Helper::Leaf)?;
        page.put(" ")?;
    }
    page.put_name(Named::Word, name)
}

/// Puts a form of a class.
fn put_of_class(
    page: &mut Page,
    form: ClassForm,
    class: &WrittenClass,
    wanted: Wanted,
) -> Result<(), AllocError> {
    match (form, wanted) {
        (ClassForm::Satisfy, Wanted::Nothing) => put_reader(page, class, false),
        (ClassForm::Satisfy, Wanted::Trees) => {
            page.put_helper(Helper::One)?;
            page.put(" ")?;
            put_reader(page, class, true)
        }
        (ClassForm::Declare, Wanted::Trees | Wanted::Nothing) => {
            page.put_helper(Helper::Declaration)?;
            page.put(" ")?;
            put_class(page, class)
        }
        (ClassForm::NotFollowedBy, Wanted::Trees | Wanted::Nothing) => {
            page.put(if wanted == Wanted::Trees {
                "[] <$ "
            } else {
                ""
            })?;
            page.put_parsec("notFollowedBy")?;
            page.put(" ")?;
            put_reader(page, class, true)
        }
    }
}
