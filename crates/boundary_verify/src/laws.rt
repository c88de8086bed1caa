//! Laws of paths, of matches and of cuts. None of these functions does anything: each carries a law.
ghost use Rattle.std.specs.Prelude.{◌≡◌, ℕ, ◌+◌, ◌-◌, ◌/◌, ◌%◌, ◌==◌, ◌≤◌, ◌<◌, Bool, List, [], ◌∷◌, ◌++◌, length};
ghost use Rattle.std.specs.List.{count_by, flat_map, list_any, sum_by};
ghost use Rattle.guest_model.specs.Play.{Spot, Script, play_of, spot_of, written_of};
ghost use Rattle.guest_model.specs.Runs.{Ended, Running, IsRunning};
ghost use Rattle.guest_model.specs.Serial.{Position, End, EndsAt, TraceItem, entries_of, position_at, run_of, trace_of};
ghost use Rattle.boundary_verify.specs.Cuts.{AreBetween, AreCuts, AreFirstCuts, CutLimits, HasNoCut, IsNextCut};
ghost use Rattle.boundary_verify.specs.Cuts.{granted_among, is_cut, last_before, paced_alone, writes_of};
ghost use Rattle.boundary_verify.specs.Lines.{AreLines, AreLinesOfPaths, IsLineOf, Line};
ghost use Rattle.boundary_verify.specs.Path.{IsMatch, last_path, path_between, script_of};
ghost use Rattle.boundary_verify.specs.Pieces.{ArePieces, HoldsForFirst, IsPiece};

/// A play that comes back to a machine and record position, in one or more steps, never ends.
pub fn recurrence()
    ensures { (script : Script) (s back : Spot) (a k : ℕ) → 1 ≤ k → play_of script a s ≡ Running back
        → play_of script (a + k) s ≡ Running back → (n : ℕ) → IsRunning (play_of script n s) }
{}

/// In a run that ends, the match of the path between two positions is their distance: no earlier position equals the
/// boundary, however like it looks. And the match of the path to the end of the run is the step that ends it.
pub fn boundaries_are_exact()
    ensures between { (p : Position) (t : ℕ) (end : End) (b c : ℕ) → EndsAt p t end → b < c → c ≤ t
        → IsMatch (path_between p b c) (c - b) }
    ensures last { (p : Position) (t : ℕ) (end : End) (b : ℕ) → EndsAt p t end → b ≤ t
        → IsMatch (last_path p b t) (t + 1 - b) }
{}

/// In any run, also one that never ends, the match of the path between two positions is at most their distance.
pub fn matches_within()
    ensures { (p : Position) (b c s : ℕ) → IsRunning (run_of c p) → b < c → IsMatch (path_between p b c) s
        → s ≤ c - b }
{}

/// A run that has ended after some number of steps ended by one of them, and by no other.
pub fn ending_step()
    ensures found { (p : Position) (n : ℕ) (last : Position) (end : End) → run_of n p ≡ Ended last end
        → (t : ℕ) × (t < n) × EndsAt p t end }
    ensures one { (p : Position) (t u : ℕ) (end other : End) → EndsAt p t end → EndsAt p u other
        → (t ≡ u) × (end ≡ other) }
{}

/// The path between two positions, and that to the end of the run, depend on nothing of the run but the position at
/// which they start.
pub fn paths_by_their_start()
    ensures between { (p : Position) (b c : ℕ) → IsRunning (run_of c p) → b ≤ c
        → path_between p b c ≡ path_between (position_at b p) 0 (c - b) }
    ensures last { (p : Position) (b t : ℕ) → b ≤ t → last_path p b t ≡ last_path (position_at b p) 0 (t - b) }
{}

/// Each run has one list of cuts, of positions above 0 in order, up to its last one.
pub fn one_list_of_cuts()
    ensures found { (limits : CutLimits) (answers : ℕ → Bool) (p : Position) (t : ℕ)
        → (cuts : List ℕ) × AreCuts limits answers p t cuts }
    ensures order { (limits : CutLimits) (answers : ℕ → Bool) (p : Position) (t : ℕ) (cuts : List ℕ)
        → AreCuts limits answers p t cuts → AreBetween t 0 cuts }
    ensures one { (limits : CutLimits) (answers : ℕ → Bool) (p : Position) (t : ℕ) (cuts others : List ℕ)
        → AreCuts limits answers p t cuts → AreCuts limits answers p t others → cuts ≡ others }
{}

/// The cuts of a run are found one after the other, each from the one before.
pub fn cuts_one_by_one()
    ensures more { (limits : CutLimits) (answers : ℕ → Bool) (p : Position) (e c : ℕ) (cuts : List ℕ)
        → AreFirstCuts limits answers p e 0 cuts → IsNextCut limits answers p e c
        → AreFirstCuts limits answers p c 0 (cuts ++ c ∷ []) }
    ensures all { (limits : CutLimits) (answers : ℕ → Bool) (p : Position) (t e : ℕ) (cuts : List ℕ)
        → AreFirstCuts limits answers p e 0 cuts → e ≤ t → HasNoCut limits answers p e (t + 1)
        → AreCuts limits answers p t cuts }
{}

/// Of the positions of a run above 0, up to its last one, those are cuts at which one of the four rules holds, which look
/// back to the last earlier cut, or to position 0.
pub fn cuts_by_rule()
    ensures { (limits : CutLimits) (answers : ℕ → Bool) (p : Position) (t s : ℕ) (cuts : List ℕ)
        → AreCuts limits answers p t cuts → 0 < s → s ≤ t
        → list_any (λ c. c == s) cuts ≡ is_cut limits answers p (last_before 0 cuts s) s }
{}

/// A pacer that is asked at each multiple of its period up to the last position is the cause of no more cuts than it
/// granted, and at no fewer multiples is there a cut.
pub fn cuts_and_grants()
    ensures alone { (limits : CutLimits) (answers : ℕ → Bool) (p : Position) (t : ℕ) (cuts : List ℕ) → 1 ≤ limits.poll
        → AreCuts limits answers p t cuts → paced_alone limits p 0 cuts ≤ granted_among answers (t / limits.poll) }
    ensures each { (limits : CutLimits) (answers : ℕ → Bool) (p : Position) (t : ℕ) (cuts : List ℕ) → 1 ≤ limits.poll
        → AreCuts limits answers p t cuts
        → granted_among answers (t / limits.poll) ≤ count_by (λ c. c % limits.poll == 0) cuts }
{}

/// In a run that ends, the pieces of the paths between neighbouring cuts and of the last path, joined, are the trace,
/// wherever the run is cut.
pub fn pieces_join()
    ensures { (p : Position) (t : ℕ) (end : End) (cuts : List ℕ) (pieces : List (List TraceItem)) → EndsAt p t end
        → AreBetween t 0 cuts → ArePieces p t 0 cuts pieces → flat_map (λ x. x) pieces ≡ trace_of (t + 1) p }
{}

/// What is so of each path up to a cut, and then of the next one, is so of all, for their pieces and their lines alike.
pub fn paths_one_by_one()
    ensures pieces { (p : Position) (e c : ℕ) (cuts : List ℕ) (pieces : List (List TraceItem)) (items : List TraceItem)
        → HoldsForFirst IsPiece p e 0 cuts pieces → IsPiece (path_between p e c) items
        → HoldsForFirst IsPiece p c 0 (cuts ++ c ∷ []) (pieces ++ items ∷ []) }
    ensures all_pieces { (p : Position) (t e : ℕ) (cuts : List ℕ) (pieces : List (List TraceItem)) (items : List TraceItem)
        → HoldsForFirst IsPiece p e 0 cuts pieces → IsPiece (last_path p e t) items
        → ArePieces p t 0 cuts (pieces ++ items ∷ []) }
    ensures lines { (p : Position) (e c : ℕ) (cuts : List ℕ) (lines : List Line) (line : Line)
        → HoldsForFirst IsLineOf p e 0 cuts lines → IsLineOf (path_between p e c) line
        → HoldsForFirst IsLineOf p c 0 (cuts ++ c ∷ []) (lines ++ line ∷ []) }
    ensures all_lines { (p : Position) (t e : ℕ) (cuts : List ℕ) (lines : List Line) (line : Line)
        → HoldsForFirst IsLineOf p e 0 cuts lines → IsLineOf (last_path p e t) line
        → AreLinesOfPaths p t 0 cuts (lines ++ line ∷ []) }
{}

/// In a run that ends, what the plays of the paths count up to their matches is what the lines of the run say, of which
/// there is one list. Their steps add up to the length of the trace, and their calls to the calls of the run.
pub fn lines_of_paths()
    ensures same { (p : Position) (t : ℕ) (end : End) (cuts : List ℕ) (lines : List Line) → EndsAt p t end
        → AreBetween t 0 cuts → AreLinesOfPaths p t 0 cuts lines → AreLines p t 0 cuts lines }
    ensures one { (p : Position) (t : ℕ) (cuts : List ℕ) (lines others : List Line) → AreLines p t 0 cuts lines
        → AreLines p t 0 cuts others → lines ≡ others }
    ensures steps { (p : Position) (t : ℕ) (end : End) (cuts : List ℕ) (lines : List Line) → EndsAt p t end
        → AreBetween t 0 cuts → AreLines p t 0 cuts lines
        → sum_by (λ (l : Line). l.steps) lines ≡ length (trace_of (t + 1) p) }
    ensures calls { (p : Position) (t : ℕ) (end : End) (cuts : List ℕ) (lines : List Line) → EndsAt p t end
        → AreBetween t 0 cuts → AreLines p t 0 cuts lines
        → sum_by (λ (l : Line). l.calls) lines ≡ length (entries_of (t + 1) p) }
{}

/// The play of the records between two positions is at the positions of the run, and writes what the run writes; so does
/// that of the records up to the end of the run.
pub fn paths_follow_the_run()
    ensures positions { (p : Position) (b c k : ℕ) → IsRunning (run_of (b + k) p) → b + k ≤ c
        → play_of (script_of p b c) k (spot_of (position_at b p)) ≡ Running (spot_of (position_at (b + k) p)) }
    ensures writes { (p : Position) (b c k : ℕ) → IsRunning (run_of (b + k) p) → b + k ≤ c
        → written_of (script_of p b c) k (spot_of (position_at b p)) ≡ writes_of k (position_at b p) }
    ensures last { (p : Position) (t : ℕ) (end : End) (b : ℕ) → EndsAt p t end → b ≤ t
        → written_of (script_of p b (t + 1)) (t + 1 - b) (spot_of (position_at b p))
        ≡ writes_of (t + 1 - b) (position_at b p) }
{}
