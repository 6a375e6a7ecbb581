// What is known of the model.

ghost use Rattle.std.specs.Prelude.{◌≡◌, ◌∷◌, [], ◌++◌, ◌<◌, ◌^◌, None, length, OnOk};
ghost use Rattle.mz_base.specs.Names.{text_of};
ghost use Rattle.mz_core.specs.TreeViews.{declared_type};
ghost use Rattle.mz_scope_names.specs.Sets.{holds};
ghost use Rattle.mz_check_meaning.specs.Models.{entry_of, entries_of, type_of_decl, heading_of, outermost, in_output};
ghost use Rattle.mz_check_meaning.specs.Passes.{Passes};
ghost use Rattle.mz_check_context.specs.Headings.{heading, tested};

use crate::functions::{FunctionNames, Overloads};
use crate::heading::{Heading, declared_or_fault, heading_or_fault};
use crate::meanings::Meanings;
use crate::scope::Scope;
use indexmap::IndexMap;
use mz_base::{Fault, Kind, Memory, Name, Names, Span, Stop};
use mz_check_meaning::Meaning;
use mz_core::CoreType;
use std::alloc::Global;

/// The types of declarations and of functions, by their numbers, or the faults at which their typing stopped.
#[derive(Drop)]
pub struct TypeTables {
    pub types: IndexMap<u64, Result<CoreType, Fault>>,
    pub headings: IndexMap<u64, Result<Heading, Fault>>,
}

/// What is known of a model while it is typed: what its names stand for, and the types of declarations and of functions that are
/// typed so far, or the fault at which that stopped. Each look-up takes a constant time.
#[derive(Drop)]
pub struct Context<'a> {
    texts: &'a Names,
    meanings: Meanings,
    overloads: Overloads,
    function_names: FunctionNames,
    count: u64,
    types: IndexMap<u64, Result<CoreType, Fault>>,
    headings: IndexMap<u64, Result<Heading, Fault>>,
    ghost few: { count < 2 ^ 63 },
}

#[tactic(auto, unfolding(crate::specs::Known::known), using(crate::proofs::Answering::answer_found, crate::proofs::Answering::answer_added))]
impl<'a> Context<'a> {
    ghost use Rattle.mz_check_context.specs.Known.{answers, known};

    /// What is known before any type is typed, of this many declarations.
    pub fn new(
        alloc: Global,
        texts: &'a Names,
        meanings: Meanings,
        overloads: Overloads,
        function_names: FunctionNames,
        count: u64,
    ) -> Context<'a>
        requires { count < 2 ^ 63 }
        ensures { known result ≡ record { texts = texts.now; names = meanings; functions = overloads; function_names = function_names; count = count; types = []; headings = [] } }
    {
        Context {
            texts,
            meanings,
            overloads,
            function_names,
            count,
            types: IndexMap::new(alloc),
            headings: IndexMap::new(alloc),
        }
    }

    /// The text of a name.
    pub fn text(&self, name: Name) -> &'a str
        requires { name < length (known self.now).texts }
        ensures { result.now ≡ text_of (known self.now).texts name }
    {
        self.texts.text(name)
    }

    /// What a name stands for, None where nothing of the shared space has it.
    pub fn meaning(&self, name: Name) -> Option<Meaning>
        ensures { result ≡ entry_of name (known self.now).names }
    {
        self.meanings.meaning(name)
    }

    /// The numbers of the functions with parameters of a name, in source order.
    pub fn numbers(&self, name: Name) -> &[u64]
        ensures { result.now ≡ entries_of name (known self.now).functions }
    {
        self.overloads.numbers(name)
    }

    /// The functions with parameters, each by its name and its number, in source order.
    pub fn functions(&self) -> &[(Name, u64)]
        ensures { result.now ≡ (known self.now).functions }
    {
        self.overloads.functions()
    }

    /// Whether a function of the model has this name.
    pub fn has_function(&self, name: Name) -> bool
        ensures { result ≡ holds name (known self.now).function_names }
    {
        self.function_names.has(name)
    }

    /// The type of a declaration, or the fault at which its typing stopped.
    pub fn type_of_decl(&self, span: Span, decl: u64) -> Result<&CoreType, Stop>
        ensures { Passes (λ t. declared_type t.now) result (type_of_decl (known self.now) span decl) }
    {
        match self.types.get(&decl) {
            Some(t) => declared_or_fault(t),
            None => Err(Stop::Refused(Fault::at(Kind::UnknownName, span))),
        }
    }

    /// The types of a function, or the fault at which their typing stopped.
    pub fn heading_of(&self, span: Span, function: u64) -> Result<&Heading, Stop>
        ensures { Passes (λ h. heading h.now) result (heading_of (known self.now) span function) }
    {
        match self.headings.get(&function) {
            Some(h) => heading_or_fault(h),
            None => Err(Stop::Refused(Fault::at(Kind::UnknownName, span))),
        }
    }

    /// Adds the type of a declaration that has none yet.
    pub fn add_type(&mut self, decl: u64, t: Result<CoreType, Fault>) -> Result<(), Memory>
        requires { entry_of decl (known self.old).types ≡ None }
        ensures { OnOk result (known self.new ≡ record (known self.old) { types = (known self.old).types ++ (decl, tested declared_type t) ∷ [] }) }
    {
        self.types.insert(decl, t)?;
        Ok(())
    }

    /// Adds the types of a function that has none yet.
    pub fn add_heading(&mut self, function: u64, h: Result<Heading, Fault>) -> Result<(), Memory>
        requires { entry_of function (known self.old).headings ≡ None }
        ensures { OnOk result (known self.new ≡ record (known self.old) { headings = (known self.old).headings ++ (function, tested heading h) ∷ [] }) }
    {
        self.headings.insert(function, h)?;
        Ok(())
    }

    /// The types alone, when nothing more is typed.
    pub fn into_tables(self) -> TypeTables
        ensures types { answers declared_type result.types.entries ≡ (known self.entry).types }
        ensures headings { answers heading result.headings.entries ≡ (known self.entry).headings }
    {
        TypeTables {
            types: self.types,
            headings: self.headings,
        }
    }

    /// The scope of the items of the model: no local name.
    pub fn outermost(&self, alloc: Global) -> Scope
        ensures { result ≡ outermost (known self.now) }
    {
        Scope::new(alloc, self.count, false)
    }

    /// The scope of output items, in which the values of declarations are known.
    pub fn in_output(&self, alloc: Global) -> Scope
        ensures { result ≡ in_output (known self.now) }
    {
        Scope::new(alloc, self.count, true)
    }
}
