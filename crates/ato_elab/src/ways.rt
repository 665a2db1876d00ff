//! What the statements of a type make and replace.
ghost use Rattle.std.specs.Prelude.{◌≡◌, ◌==◌, ◌++◌, [], ◌∷◌, ℕ, List, map, Some, None, IfOk, OnOk, if◌then◌else◌};
ghost use Rattle.std.specs.List.{flat_map};
ghost use Rattle.std.specs.Option.{option_or};
ghost use Rattle.ato_base.specs.declared.places.Span.{Span};
ghost use Rattle.ato_ast.specs.declared.stmts.Stmt.TheVariants as stmt;
ghost use Rattle.ato_files.specs.Lists.{first_of_all};
ghost use Rattle.ato_files.specs.declared.program.SourceFile.{SourceFile};
ghost use Rattle.ato_files.specs.Blocks.{meaning_in};
ghost use Rattle.ato_files.specs.Meant.{AreMeanings};
ghost use Rattle.ato_files.specs.Programs.{AreBlocks};
ghost use Rattle.ato_instance_tree.specs.Kept.{located_of};
ghost use Rattle.ato_instance_tree.specs.Types.{Located, meant};
ghost use Rattle.ato_elab.specs.Changes.{AreChanges, seen};
ghost use Rattle.ato_elab.specs.Waiting.{Waits, waits_in, waits_of};
ghost use Rattle.ato_elab.specs.Ways.{AreNews, AreWays, kept};

use crate::changes::{Change, Changes};
use crate::news::News;
use crate::settling::info_at;
use ato_ast::{Named, Path, Stmt};
use ato_base::{Name, NoMemory};
use ato_files::{Meanings, Program};
use ato_instance_tree::StmtAt;
use std::alloc::Global;

/// The types of an instance's members: what `new` gives, and what replaces it.
#[derive(Drop)]
pub(crate) struct Ways<'a> {
    pub(crate) news: News,
    pub(crate) changes: Changes<'a>,
}

/// The block that a name means in the file of a block. It takes no memory.
fn meant(program: &Program, meanings: &Meanings, block: u32, name: Name) -> Option<u32>
    ensures { AreBlocks program.now.files program.now.blocks → AreMeanings program.now.files meanings.now → result ≡ meaning_in program.now.files block name.0 }
{
    match info_at(program.blocks.as_slice(), block as usize) {
        Some(info) => meanings.meaning_in(info.file, name),
        None => None,
    }
}

impl<'a> Ways<'a> {
    /// None. It takes no memory.
    fn new(alloc: Global) -> Ways<'a>
        ensures { (files : List SourceFile) → AreWays files [] [] result }
    {
        Ways {
            news: News::new(alloc),
            changes: Changes::new(alloc),
        }
    }

    /// Puts in what a `new` in a block gives to a name.
    fn read_make(
        &mut self,
        program: &Program,
        meanings: &Meanings,
        block: u32,
        name: &Named,
        of: &Named,
    ) -> Result<(), NoMemory>
        ensures news { OnOk result (AreBlocks program.now.files program.now.blocks → AreMeanings program.now.files meanings.now → (q : ℕ) → kept self.new.news q ≡ option_or (kept self.old.news q) (first_of_all (if name.now.name.0 == q then meant program.now.files block of.now else []))) }
        ensures changes { OnOk result (self.new.changes ≡ self.old.changes) }
    {
        match meant(program, meanings, block, of.name) {
            Some(number) => {
                self.news.put(name.name.0, number, *of)?;
                Ok(())
            }
            None => Ok(()),
        }
    }

    /// Puts in what a replacement in a block puts at a path.
    fn read_replace(
        &mut self,
        alloc: Global,
        program: &Program,
        meanings: &Meanings,
        block: u32,
        path: &'a Path,
        of: &Named,
    ) -> Result<(), NoMemory>
        ensures news { OnOk result (self.new.news ≡ self.old.news) }
        ensures changes { OnOk result (AreBlocks program.now.files program.now.blocks → AreMeanings program.now.files meanings.now → (at : Span) (ws : List Waits) → AreChanges ws self.old.changes → AreChanges (ws ++ waits_of program.now.files block (stmt.Replace path.now of.now at)) self.new.changes) }
    {
        if path.pin.is_some() {
            return Ok(());
        }
        match meant(program, meanings, block, of.name) {
            Some(to) => {
                self.changes.push(
                    alloc,
                    Change {
                        rest: path.steps.as_slice(),
                        to,
                        named: *of,
                    },
                )?;
                Ok(())
            }
            None => Ok(()),
        }
    }

    /// Puts in what a statement makes or replaces.
    fn read(
        &mut self,
        alloc: Global,
        program: &Program,
        meanings: &Meanings,
        at: &StmtAt<'a>,
    ) -> Result<(), NoMemory>
        ensures news { OnOk result (AreBlocks program.now.files program.now.blocks → AreMeanings program.now.files meanings.now → (ls : List Located) → AreNews program.now.files ls self.old.news → AreNews program.now.files (ls ++ located_of at.now ∷ []) self.new.news) }
        ensures changes { OnOk result (AreBlocks program.now.files program.now.blocks → AreMeanings program.now.files meanings.now → (ws : List Waits) → AreChanges ws self.old.changes → AreChanges (ws ++ waits_in program.now.files (located_of at.now)) self.new.changes) }
    {
        match at.stmt {
            Stmt::Make(name, of, _) => {
                self.read_make(program, meanings, at.block, name, of)?;
                Ok(())
            }
            Stmt::Replace(path, of, _) => {
                self.read_replace(alloc, program, meanings, at.block, path, of)?;
                Ok(())
            }
            Stmt::Pass(_)
            | Stmt::Docs(_)
            | Stmt::Point(_, _, _)
            | Stmt::Connect(_, _, _)
            | Stmt::Declare(_, _, _, _)
            | Stmt::Assign(_, _, _)
            | Stmt::Assert(_, _, _) => Ok(()),
        }
    }

    /// Puts in what statements make and replace.
    fn read_all(
        &mut self,
        alloc: Global,
        program: &Program,
        meanings: &Meanings,
        statements: &[StmtAt<'a>],
    ) -> Result<(), NoMemory>
        ensures news { OnOk result (AreBlocks program.now.files program.now.blocks → AreMeanings program.now.files meanings.now → (ls : List Located) → AreNews program.now.files ls self.old.news → AreNews program.now.files (ls ++ map located_of statements.now) self.new.news) }
        ensures changes { OnOk result (AreBlocks program.now.files program.now.blocks → AreMeanings program.now.files meanings.now → (ws : List Waits) → AreChanges ws self.old.changes → AreChanges (ws ++ flat_map (waits_in program.now.files) (map located_of statements.now)) self.new.changes) }
    {
        for at in statements {
            self.read(alloc, program, meanings, at)?;
        }
        Ok(())
    }

    /// Puts replacements from around behind the others.
    fn pass(&mut self, alloc: Global, from: &[Change<'a>]) -> Result<(), NoMemory>
        ensures news { OnOk result (self.new.news ≡ self.old.news) }
        ensures changes { OnOk result ((ws : List Waits) → AreChanges ws self.old.changes → AreChanges (ws ++ map seen from.now) self.new.changes) }
    {
        for change in from {
            self.changes.push(alloc, *change)?;
        }
        Ok(())
    }

    /// What the statements of a type make and replace, with the replacements from around that go on below its instance.
    pub(crate) fn of(
        alloc: Global,
        program: &Program,
        meanings: &Meanings,
        statements: &[StmtAt<'a>],
        from: &[Change<'a>],
    ) -> Result<Ways<'a>, NoMemory>
        ensures { IfOk result (λ ways. AreBlocks program.now.files program.now.blocks → AreMeanings program.now.files meanings.now → AreWays program.now.files statements.now from.now ways) }
    {
        let mut ways = Ways::new(alloc);
        ways.read_all(alloc, program, meanings, statements)?;
        ways.pass(alloc, from)?;
        Ok(ways)
    }
}
