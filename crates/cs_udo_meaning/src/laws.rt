// Facts about calls of user-defined opcodes. These functions do nothing; their contracts state the facts.
ghost use Rattle.std.specs.List.{All, AllZip, AllPairs, IsDistinct, flat_map};
ghost use Rattle.std.specs.Prelude.{◌≡◌, ◌≢◌, ◌∷◌, ◌++◌, ◌<◌, [], ℕ, List, None, Ok, eqb, map};
ghost use Rattle.cs_base.specs.{declared.resource.Res.Res, declared.spaces.Spaces.Spaces};
ghost use Rattle.cs_grammar.specs.Tree.{Block, Definition, Instrument, Orchestra};
ghost use Rattle.cs_grammar.specs.WellFormed.{IsWellFormed, WellFormedInstrument};
ghost use Rattle.cs_ir.specs.Worlds.{World};
ghost use Rattle.cs_meaning.specs.{Examples.each, Examples.whole, Core.core, Initialising.init_block, Notes.Note};
ghost use Rattle.cs_meaning.specs.{Notes.Path, Notes.StatementPlace, Performing.perf_block, When.When};
ghost use Rattle.cs_typed.specs.TypedTree as typed;
ghost use Rattle.cs_typed.specs.WellRated.{BlockHasNoZakinit};
ghost use Rattle.cs_typing.specs.{Known.Shared, Typing.type_fault, Typing.typed_of};
ghost use Rattle.cs_udo.specs.{Expanding.expanding, Worked.twice, Worked.calls_twice, Worked.count};
ghost use Rattle.cs_udo_meaning.specs.Examples.{bump, calls_bump, counted, framed, heard, of_fives, of_sums, sevens};
ghost use Rattle.cs_udo_meaning.specs.Examples.{swap, calls_swap, calls_only_first, inc, two, calls_two, turn};
ghost use Rattle.cs_udo_meaning.specs.Examples.{calls_turn, half, calls_half, keeping};
ghost use Rattle.cs_udo_meaning.specs.Frames.{Framed, Reading, actions_of, block_done, frames_of_block, own_frame};
ghost use Rattle.cs_udo_meaning.specs.Frames.{by_pass, keepers_of_block, typed_keepers_of_block, units_of_block};
ghost use Rattle.cs_udo_meaning.specs.Lives.{Cycle, MeansFrames, life_with_frames, reading};
ghost use Rattle.cs_udo_meaning.specs.Numbered.{Numbering, Tells, spelled};
ghost use Rattle.cs_udo_meaning.specs.Renumbered.{HasNames, LeadsTo, renumbered, renumbered_cycle};
ghost use Rattle.cs_udo_meaning.specs.Typed.{IsNumbered, IsNumberedInstrument, shared_of};

/// An orchestra with user-defined opcodes has the meaning of its definitions. Suppose that its calls can be
/// expanded and that the expansion breaks no rule of rates and names. Then each instrument of the typed
/// expansion performs, as it begins and in every control cycle, the actions of the instrument with frames
/// (specs/Frames). There each place of a call has a separate frame. Inputs are copied in, the body is
/// performed over its frame and the shared resources, and results are assigned from left to right. This holds
/// in every world `W`. The states of the world are equal from the note's beginning on, whatever other notes
/// do between its cycles, and even if each cycle has a different world. Statements outside instruments are
/// unchanged.
pub fn expansion_means_calls<W>()
    ensures instruments { (o : Orchestra) → (made : Orchestra) → IsWellFormed o → expanding o ≡ Ok made →
        type_fault made ≡ None →
        AllZip (MeansFrames W o.opcodes (shared_of made)) o.instrs (typed_of made).instrs }
    ensures outside { (o : Orchestra) → (made : Orchestra) → expanding o ≡ Ok made → made.zero ≡ o.zero }
{}

/// The numbering of shared names has no effect. From any lists that have every name of the lists `g`, a
/// mapping of numbers leads to `g`. If a mapping leads from lists `h` to lists `g`, an instrument has the
/// same life by `h` and by `g` (`life_with_frames`), in worlds whose resources have the numbers of `h`.
pub fn shared_names_have_any_numbers<W>()
    ensures numbers { (g : Shared) → (h : Shared) → HasNames h g → (to : Res → Res) × LeadsTo to h g }
    ensures lives { (to : Res → Res) → (g : Shared) → (h : Shared) → LeadsTo to h g →
        (ds : List Definition) → (i : Instrument) → WellFormedInstrument i →
        (o : World W) → (spaces : Spaces) → (own : Numbering) → Tells own → (cycles : List (Cycle W)) → (x : W) →
        life_with_frames (reading (renumbered to o) spaces h own) ds i (map (renumbered_cycle to) cycles) x
        ≡ life_with_frames (reading o spaces g own) ds i cycles x }
{}

/// The typed expansion of an orchestra can be lowered: no instrument contains a `zakinit`, and no instrument
/// number occurs twice.
pub fn expansions_can_be_lowered()
    ensures no_zakinit { (o : Orchestra) → (made : Orchestra) → IsWellFormed o → expanding o ≡ Ok made →
        All (λ (i : typed.Instrument). BlockHasNoZakinit i.body) (typed_of made).instrs }
    ensures numbers { (o : Orchestra) → (made : Orchestra) → IsWellFormed o → expanding o ≡ Ok made →
        IsDistinct eqb (flat_map (λ (i : typed.Instrument). i.numbers) (typed_of made).instrs) }
{}

/// Each place of a call has a frame for itself. The instrument's own frame and the frames of all its calls,
/// those in called bodies included, are all different. Unit numbers, under which units record their inputs so
/// far, ascend in the order of the text. Statements of a frame, as the note begins and in a cycle, change
/// only their own frame and the frames of the calls in them. Values are kept only for parts that may keep
/// values (`keepers_of_block`), as in a text without user-defined opcodes.
pub fn calls_have_frames_of_their_own<W>()
    ensures differ { (ds : List Definition) → (n : ℕ) → (p : Path) → (b : Block) →
        AllPairs (λ f g. f ≢ g) (own_frame ∷ frames_of_block (actions_of W ds) (n ∷ p) b) }
    ensures units { (m : Reading W) → (ds : List Definition) → (n : ℕ) → (b : Block) →
        AllPairs (λ f g. f < g) (units_of_block m (actions_of W ds) n b) }
    ensures alone { (m : Reading W) → (ds : List Definition) → (w : When) → (f : Path) → (g : Path) → g ≢ f →
        (p : StatementPlace) → (b : Block) → (u : Framed W) →
        All (λ h. g ≢ h) (frames_of_block (actions_of W ds) p.path b) →
        (block_done m (actions_of W ds) w f p b u).frames g ≡ u.frames g }
    ensures kept { (m : Reading W) → (ds : List Definition) → (w : When) → (f : Path) →
        (p : StatementPlace) → (b : Block) → (u : Framed W) → (q : Path) →
        All (λ k. (y : Path) → q ≢ y ++ k) (keepers_of_block (actions_of W ds) p.path b) →
        (block_done m (actions_of W ds) w f p b u).kept q ≡ u.kept q }
    ensures kept_in_expansions { (o : World W) → (spaces : Spaces) → (w : When) →
        (p : StatementPlace) → (b : typed.Block) → (t : Note W) → (q : Path) →
        All (λ k. (y : Path) → q ≢ y ++ k) (typed_keepers_of_block p.path b) →
        (by_pass w (init_block o p (core spaces b) t) (perf_block o p (core spaces b) t)).kept q ≡ t.kept q }
{}

/// The typed form of an orchestra without a fault depends only on the names known at the end of its text.
/// Shared variables and channels are numbered by their places there. Local variables have a number for each
/// name, different for different names, by one numbering for each instrument and one for the code outside.
pub fn typing_is_by_numbers()
    ensures instruments { (o : Orchestra) → type_fault o ≡ None →
        AllZip (IsNumberedInstrument (shared_of o)) o.instrs (typed_of o).instrs }
    ensures outside { (o : Orchestra) → type_fault o ≡ None → IsNumbered (shared_of o) o.zero (typed_of o).zero }
    ensures spelled { Tells spelled }
{}

/// Worked examples by the definitions of calls: small instruments with user-defined opcodes, four frames a
/// control cycle, two cycles.
pub fn calls_worked_by_hand()
    // k1 Twice p4, k2 Twice k1, with p4 = 5: the result is 20 in all frames.
    ensures twice { heard of_fives (twice ∷ []) calls_twice ≡ each (whole 20) ∷ each (whole 20) ∷ [] }
    // Two places of a call that counts: each counts separately, so the results are 1 and 1, then 2 and 2.
    ensures two_counters { heard sevens (count ∷ []) counted ≡ each (whole 11) ∷ each (whole 22) ∷ [] }
    // An input that the body changes is a copy: k1 remains 5, and the result is 6.
    ensures copies { heard sevens (bump ∷ []) calls_bump ≡ each (whole 56) ∷ each (whole 56) ∷ [] }
    // All results are computed before the first is assigned: 1 and 2 are swapped.
    ensures results { heard sevens (swap ∷ []) calls_swap ≡ each (whole 21) ∷ each (whole 21) ∷ [] }
    // Calls in calls: each of the four counts separately, so the two results are 12 and 24, then 24 and 48.
    ensures nested { heard sevens (inc ∷ two ∷ []) calls_two ≡ each (whole 15) ∷ each (whole 30) ∷ [] }
    // The paths of these calls: the first and the second statement, and in each called body, which is part 1
    // of its call, its two statements.
    ensures framed { framed (inc ∷ two ∷ []) calls_two
        ≡ (0 ∷ []) ∷ (0 ∷ 1 ∷ 0 ∷ []) ∷ (1 ∷ 1 ∷ 0 ∷ []) ∷ (1 ∷ []) ∷ (0 ∷ 1 ∷ 1 ∷ []) ∷ (1 ∷ 1 ∷ 1 ∷ []) ∷ [] }
    // A unit in a body has a state at each place. Here it returns the sum of its inputs: 1 and 2, then 2 and
    // 4.
    ensures states { heard of_sums (turn ∷ []) calls_turn ≡ each (whole 12) ∷ each (whole 24) ∷ [] }
    // i-rate inputs and results are assigned as the note begins.
    ensures init { heard sevens (half ∷ []) calls_half ≡ each (whole 4) ∷ each (whole 4) ∷ [] }
    // The parts that may keep values here. The argument is part 0 of the call, the statement of the body that
    // assigns `xout`'s value is in part 1, and the result is part 2. The two statements after the call may
    // keep values too.
    ensures keeping { keeping (half ∷ []) calls_half
        ≡ (0 ∷ 0 ∷ 0 ∷ []) ∷ (0 ∷ 1 ∷ 0 ∷ []) ∷ (0 ∷ 2 ∷ 0 ∷ []) ∷ (1 ∷ []) ∷ (2 ∷ []) ∷ [] }
    // A call in an `if` counts only if its arm is taken, and keeps its frame from cycle to cycle.
    ensures in_an_if { heard sevens (count ∷ []) calls_only_first ≡ each (whole 1) ∷ each (whole 0) ∷ [] }
{}
