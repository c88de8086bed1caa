// The value of pieces, and a line for each.
ghost use Rattle.std.specs.Prelude.{◌≡◌, ◌++◌, [], ◌∷◌, false, true, IfOk, OnErr, OnOk, length};
ghost use Rattle.std.specs.List.{flat_map};
ghost use Rattle.tool_law.specs.Law.{Merges};
ghost use Rattle.ordered_merge.specs.Merged.{AreNumberedFrom, GivesValue, line_of, lines_of};

use ins_views::Views;
use std::alloc::{AllocError, Global};
use tool_law::{Hits, Piece, Tool};

/// What is told of a slice: how many instructions and calls it made, and how many of its positions passed the tests of its
/// boundary.
#[derive(Clone, Copy)]
pub struct SliceLine {
    pub steps: u64,
    pub calls: u64,
    pub hits: Hits,
}

/// The state of the pieces that were put, and their lines. It is used no further once a piece was refused.
#[derive(Drop)]
pub struct Merger<T: Tool> {
    pub shared: T::Shared,
    pub lines: Vec<SliceLine>,
    pub refused: bool,
}

impl<T: Tool> Merger<T> {
    /// No piece was put.
    pub fn create(alloc: Global, tool: &T, views: &Views) -> Result<Merger<T>, AllocError>
        ensures value { IfOk result (λ merger. T.is_value tool.now [] merger.shared) }
        ensures lines { IfOk result (λ merger. merger.lines.items ≡ []) }
        ensures sound { IfOk result (λ merger. merger.refused ≡ false) }
    {
        Ok(Merger {
            shared: tool.start(alloc, views)?,
            lines: Vec::new(alloc),
            refused: false,
        })
    }

    /// Puts the next piece.
    pub fn put(&mut self, tool: &T, piece: Piece<T>) -> Result<(), AllocError>
        requires next { piece.index ≡ length self.old.lines.items }
        requires sound { self.old.refused ≡ false }
        ensures value { OnOk result
            (Merges (T.is_local tool.now) (T.is_value tool.now)
            self.old.shared piece.local self.new.shared) }
        ensures lines { OnOk result
            (self.new.lines.items ≡ self.old.lines.items ++ line_of piece ∷ []) }
        ensures sound { OnOk result (self.new.refused ≡ false) }
        ensures refused { OnErr result (self.new.refused ≡ true) }
    {
        let line = SliceLine {
            steps: piece.steps,
            calls: piece.calls,
            hits: piece.hits,
        };
        self.refused = true;
        tool.merge(&mut self.shared, piece.local)?;
        self.lines.push(line)?;
        self.refused = false;
        Ok(())
    }

    /// The state and the lines.
    pub fn finish(self) -> (T::Shared, Vec<SliceLine>)
        requires { self.refused ≡ false }
        ensures value { result.0 ≡ self.shared }
        ensures lines { result.1 ≡ self.lines }
    {
        (self.shared, self.lines)
    }
}

/// Puts the pieces that slices gave, in their order, up to the first slice that gave none.
pub fn put_all<T: Tool>(
    merger: &mut Merger<T>,
    tool: &T,
    results: Vec<Result<Piece<T>, AllocError>>,
) -> Result<(), AllocError>
    requires sound { merger.old.refused ≡ false }
    requires next { AreNumberedFrom (length merger.old.lines.items) results.items }
    ensures value { OnOk result (GivesValue (T.is_local tool.now) (T.is_value tool.now)
        merger.old.shared results.items merger.new.shared) }
    ensures lines { OnOk result
        (merger.new.lines.items ≡ merger.old.lines.items ++ flat_map lines_of results.items) }
    ensures sound { OnOk result (merger.new.refused ≡ false) }
{
    for result in results {
        let piece = result?;
        merger.put(tool, piece)?;
    }
    Ok(())
}
