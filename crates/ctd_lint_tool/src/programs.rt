//! The files of programs, as sources.

ghost use Rattle.std.specs.Prelude.{◌≡◌, IfOk, IfSome, List, Option, ℕ};
ghost use Rattle.std.specs.declared.alloc.Global.{Global};
ghost use Rattle.std.specs.declared.io.buffered.BufReader.{BufReader as Buffered};
ghost use Rattle.ctd_process.specs.Process.{StartsOn};
ghost use Rattle.ctd_source.specs.declared.from_read.FromRead.{FromRead as SourceOf};
ghost use Rattle.ctd_source.specs.declared.source.Seen.TheVariants.{Going};
ghost use Rattle.ctd_lint_tool.specs.calls.Opening.{AsksFor, OpensProgram};

use ctd_process::{Files, System, SystemFile, buffered_source};
use ctd_source::{FromRead, Source};
use std::alloc::{AllocError, Global};
use std::io::BufReader;

/// Files that are handed back once they are read, so that code which is generic over them can show how it left each, and holds one open at a time.
pub trait ClosableFiles: Files {
    // What handing a source back does: the files before, the source as it was left, and the files after.
    ghost closes: { Self → SourceOf (Buffered Self.File Global) → Self → Type 0 };

    /// Takes a source back.
    fn close(&mut self, source: FromRead<BufReader<Self::File>>)
        ensures { closes self.old source self.new };
}

impl ClosableFiles for System<'_> {
    ghost use Rattle.std.specs.Prelude.{⊤};

    // The contracts of std tell nothing of the system.
    ghost closes = { λ _ _ _. ⊤ };

    fn close(&mut self, source: FromRead<BufReader<SystemFile>>)
        ensures { ⊤ }
    {
        drop(source);
    }
}

/// Programs that are opened by the names of their files.
pub(crate) trait Programs {
    /// The source that reads a program.
    type Program: Source + Drop;

    // What opening a program does: the files before, its name, the source that reads it, or none where it can't be opened, and the files after.
    ghost opens_program: { Self → List ℕ → Option Self.Program → Self → Type 0 };

    // What asking for a program does, whatever came of it.
    ghost asks_for: { Self → List ℕ → Self → Type 0 };

    // What handing the source of a program back does.
    ghost closes_program: { Self → Self.Program → Self → Type 0 };

    /// The source of the program in the file of this name, or none where it can't be opened.
    fn open_program(
        &mut self,
        alloc: Global,
        name: &[u8],
    ) -> Result<Option<Self::Program>, AllocError>
        ensures opened { IfOk result (λ answer. opens_program self.old name.now answer self.new) }
        ensures going { IfOk result (λ answer. IfSome answer (λ program. Self.Program.seen program ≡ Going)) }
        // also where memory ran out
        ensures asked { asks_for self.old name.now self.new };

    /// Takes the source of a program back.
    fn close_program(&mut self, program: Self::Program)
        ensures { closes_program self.old program self.new };
}

impl<F: ClosableFiles> Programs for F {
    type Program = FromRead<BufReader<F::File>>;

    ghost opens_program = { OpensProgram F.opens (StartsOn F.File.remaining ⟦<FromRead<BufReader<F::File>> as Source>⟧) };

    ghost asks_for = { AsksFor F.opens };

    ghost closes_program = { F.closes };

    fn open_program(
        &mut self,
        alloc: Global,
        name: &[u8],
    ) -> Result<Option<FromRead<BufReader<F::File>>>, AllocError> {
        match self.open(name) {
            Some(file) => Ok(Some(buffered_source(alloc, file)?)),
            None => Ok(None),
        }
    }

    fn close_program(&mut self, program: FromRead<BufReader<F::File>>) {
        self.close(program);
    }
}
