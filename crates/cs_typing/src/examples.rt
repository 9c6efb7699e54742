// Small orchestras checked with the definitions: functions that do nothing, and whose contracts are the
// examples.
ghost use Rattle.std.specs.Prelude.{◌≡◌, ◌*◌, ◌+◌, [], ◌∷◌, codes, pos, negsuc, true, false, None};
ghost use Rattle.cs_base.specs.declared.fault.OrcKind.TheVariants as orc;
ghost use Rattle.cs_words.specs.declared.catalogue.Opcode.TheVariants as opcode;
ghost use Rattle.cs_words.specs.declared.sign.BinOp.TheVariants as op;
ghost use Rattle.cs_words.specs.declared.word.Func.TheVariants as func;
ghost use Rattle.cs_words.specs.declared.word.HeadName.TheVariants as head;
ghost use Rattle.cs_grammar.specs.declared.tree.Callee.TheVariants as callee;
ghost use Rattle.cs_grammar.specs.Tree.{number, var, field, neg, pair, apply, value, text, set, call, choose, no_stmt};
ghost use Rattle.cs_grammar.specs.Tree.{otherwise, arm};
ghost use Rattle.cs_typing.specs.Examples.{line, instr, orchestra, whole, lit, one, two, body_of, outside_of, calls};
ghost use Rattle.cs_typing.specs.Examples.{broken, eight_by_four, three, zak, zak_of_one_and_two, zak_in_an_if};
ghost use Rattle.cs_typing.specs.Settings.{in_range, header, settings_fault, zaks_of_block, zak_spaces};
ghost use Rattle.cs_typing.specs.Typing.{type_fault};

/// Orchestras of one or two statements, each with its first broken rule.
pub fn types_worked_by_hand()
    // A value changes more often than its variable.
    ensures faster_value { type_fault (orchestra eight_by_four no_stmt
        (instr 3 1 (two (set 4 (codes "k1") (field 4)) (set 5 (codes "i1") (var (codes "k1")))) ∷ []))
        ≡ broken 5 orc.RateMismatch }
    ensures condition_as_value { type_fault (body_of (one (set 2 (codes "k1") (pair op.Equal (lit 1) (lit 2)))))
        ≡ broken 2 orc.RateMismatch }
    ensures control_outside { type_fault (outside_of (set 1 (codes "k1") (lit 1))) ≡ broken 1 orc.RateMismatch }
    // A variable is read that no earlier statement assigns; the function `i` and `+=` read their variable,
    // too.
    ensures never_given { type_fault (body_of (one (set 2 (codes "k1") (var (codes "k2"))))) ≡ broken 2 orc.Undefined }
    ensures init_function_reads { type_fault (body_of (one (set 2 (codes "i1") (apply func.I (var (codes "k2"))))))
        ≡ broken 2 orc.Undefined }
    ensures sum_reads { type_fault (body_of (one (set 2 (codes "k1") (pair op.Add (var (codes "k1")) (lit 1)))))
        ≡ broken 2 orc.Undefined }
    ensures sum_of_sound { type_fault (body_of (two (calls 2 (codes "k1" ∷ []) opcode.Init (value (lit 1) ∷ []))
        (set 3 (codes "k1") (pair op.Add (var (codes "k1")) (number (pos 1)))))) ≡ None }
    // Code outside instruments is one body, even if an instrument comes between its lines; each instrument is
    // a separate body.
    ensures one_body_outside { type_fault (orchestra []
        (two (set 1 (codes "i1") (lit 1)) (set 5 (codes "i2") (var (codes "i1"))))
        (instr 2 1 (one (set 3 (codes "k1") (lit 1))) ∷ [])) ≡ None }
    ensures bodies_apart { type_fault (orchestra [] no_stmt (instr 1 1 (one (set 2 (codes "i1") (lit 1)))
        ∷ instr 4 2 (one (set 5 (codes "i2") (var (codes "i1")))) ∷ [])) ≡ broken 5 orc.Undefined }
    ensures global_given_later { type_fault (orchestra [] no_stmt
        (instr 1 1 (one (set 2 (codes "k1") (var (codes "gk1"))))
        ∷ instr 4 2 (one (set 5 (codes "gk1") (lit 1))) ∷ [])) ≡ None }
    // Opcodes: an unknown one, and calls with too few arguments, with half a pair, with other rates, and
    // without the text.
    ensures no_such_opcode { type_fault (body_of (one
        (call 2 (codes "k1" ∷ []) (callee.Name (codes "nosuch")) (value (lit 1) ∷ []))))
        ≡ broken 2 orc.UnknownOpcode }
    ensures too_few { type_fault (body_of (one (calls 2 (codes "a1" ∷ []) opcode.Oscil (value (lit 1) ∷ []))))
        ≡ broken 2 orc.ArgCount }
    ensures half_a_pair { type_fault (body_of (one (calls 2 (codes "a1" ∷ []) opcode.Linseg
        (value (lit 0) ∷ value (lit 1) ∷ value (lit 1) ∷ value (lit 2) ∷ [])))) ≡ broken 2 orc.ArgCount }
    ensures out_of_a_number { type_fault (body_of (one (calls 2 [] opcode.Out (value (lit 1) ∷ []))))
        ≡ broken 2 orc.RateMismatch }
    ensures event_needs_four { type_fault (body_of (one (calls 2 [] opcode.EventI
        (value (lit 1) ∷ value (lit 0) ∷ value (lit 1) ∷ [])))) ≡ broken 2 orc.ArgCount }
    ensures event_needs_text { type_fault (body_of (one (calls 2 [] opcode.EventI
        (value (lit 1) ∷ value (lit 1) ∷ value (lit 0) ∷ value (lit 1) ∷ [])))) ≡ broken 2 orc.RateMismatch }
    // A channel that is used at the k-rate and at the a-rate; more audio signals than channels.
    ensures channel_of_both { type_fault (body_of (two (calls 2 (codes "k1" ∷ []) opcode.Chnget (text (codes "c") ∷ []))
        (calls 3 [] opcode.Chnclear (text (codes "c") ∷ [])))) ≡ broken 3 orc.ChannelRate }
    ensures one_channel_alone { type_fault (body_of (two (calls 2 (codes "a1" ∷ []) opcode.Interp (value (lit 1) ∷ []))
        (calls 3 [] opcode.Outs (value (var (codes "a1")) ∷ value (var (codes "a1")) ∷ [])))) ≡ broken 3 orc.OutCount }
    // The condition of `elseif` has the line of its `if`.
    ensures later_condition { type_fault (body_of (one (choose 2
        (arm (pair op.Equal (field 4) (lit 1)) (one (set 3 (codes "i1") (lit 1)))
        (arm (pair op.Equal (var (codes "k1")) (lit 1)) no_stmt (otherwise no_stmt)))))) ≡ broken 2 orc.Undefined }
{}

/// Header lines and `zakinit`s: their ranges, their order, and the resulting settings.
pub fn settings_worked_by_hand()
    // The defaults; `kr` by itself determines the frames per cycle; and nothing is rounded.
    ensures unset { header [] ≡ record { sr = 44100; ksmps = 10; nchnls = 1; dbfs = whole 32768 } }
    ensures by_kr { (header (line 1 head.Kr (whole 4800) ∷ line 2 head.Sr (whole 48000) ∷ [])).ksmps ≡ 10 }
    ensures by_kr_with_a_fraction { (header (line 1 head.Kr (pos 90316800) ∷ [])).ksmps ≡ 32 }
    ensures never_rounded { settings_fault (line 7 head.Kr (whole 4000) ∷ []) no_stmt ≡ broken 7 orc.HeaderValue }
    ensures no_cycles { settings_fault (line 3 head.Kr (pos 0) ∷ []) no_stmt ≡ broken 3 orc.HeaderValue }
    ensures cycles_below_zero { settings_fault
        (line 3 head.Kr (negsuc 655359999) ∷ line 4 head.Ksmps (whole 4) ∷ []) no_stmt ≡ broken 3 orc.HeaderValue }
    ensures cycle_too_long { settings_fault (line 1 head.Kr (whole 10) ∷ line 2 head.Sr (whole 40970) ∷ []) no_stmt
        ≡ broken 1 orc.HeaderValue }
    ensures longest_cycle { settings_fault (line 1 head.Kr (whole 10) ∷ line 2 head.Sr (whole 40960) ∷ []) no_stmt
        ≡ None }
    ensures kr_broken { settings_fault (three (whole 4410)) no_stmt ≡ broken 2 orc.HeaderValue }
    ensures kr_exact { settings_fault (three (pos 90316800)) no_stmt ≡ None }
    // The ends of each range, and values just beyond them.
    ensures ends { (in_range head.Sr (whole 1) ≡ true) × (in_range head.Sr (whole 192000) ≡ true)
        × (in_range head.Ksmps (whole 4096) ≡ true) × (in_range head.Nchnls (whole 16) ≡ true)
        × (in_range head.Dbfs (pos 1) ≡ true) }
    ensures past_the_ends { (in_range head.Sr (whole 0) ≡ false) × (in_range head.Sr (whole 192001) ≡ false)
        × (in_range head.Ksmps (whole 4097) ≡ false) × (in_range head.Nchnls (whole 17) ≡ false)
        × (in_range head.Dbfs (pos 0) ≡ false) }
    ensures fraction_of_a_frame { in_range head.Sr (pos (44100 * 65536 + 1)) ≡ false }
    // A value is checked before a duplicate name, and `kr` after all other settings, whatever its line.
    ensures twice { settings_fault (line 1 head.Sr (whole 8) ∷ line 2 head.Sr (whole 8) ∷ []) no_stmt
        ≡ broken 2 orc.HeaderTwice }
    ensures range_before_twice { settings_fault (line 1 head.Sr (whole 8) ∷ line 2 head.Sr (pos 0) ∷ []) no_stmt
        ≡ broken 2 orc.HeaderValue }
    ensures sixth { settings_fault (line 1 head.Sr (whole 8) ∷ line 2 head.Kr (whole 2) ∷ line 3 head.Ksmps (whole 4)
        ∷ line 4 head.Nchnls (whole 2) ∷ line 5 head.Dbfs (whole 1) ∷ line 6 head.Kr (whole 2) ∷ []) no_stmt
        ≡ broken 6 orc.HeaderTwice }
    ensures kr_last { settings_fault (line 1 head.Kr (whole 7) ∷ line 9 head.Nchnls (whole 17) ∷ []) no_stmt
        ≡ broken 9 orc.HeaderValue }
    // Header lines and `zakinit`s are checked in the order of the text.
    ensures header_line_first { settings_fault (line 2 head.Sr (whole 0) ∷ [])
        (one (zak 3 (value (lit 0)) (value (lit 1)))) ≡ broken 2 orc.HeaderValue }
    ensures size_first { settings_fault (line 4 head.Sr (whole 0) ∷ []) (one (zak 3 (value (lit 0)) (value (lit 1))))
        ≡ broken 3 orc.HeaderValue }
    // A space has the places from 0 to its size; the first size is for the a-rate space.
    ensures sizes { zak_spaces (zaks_of_block (one (zak 1 (value (lit 1000)) (value (lit 1)))))
        ≡ record { control = 2; audio = 1001 } }
    ensures greatest_size { settings_fault [] (one (zak 1 (value (lit 1000)) (value (lit 1)))) ≡ None }
    ensures size_too_great { settings_fault [] (one (zak 1 (value (lit 1)) (value (lit 1001))))
        ≡ broken 1 orc.HeaderValue }
    ensures size_with_a_sign { settings_fault [] (one (zak 1 (value (neg (lit 1))) (value (lit 1))))
        ≡ broken 1 orc.HeaderValue }
    // A size is checked with the settings; a text in its place is checked with its statement.
    ensures size_before_count { type_fault (outside_of
        (calls 1 [] opcode.Zakinit (value (pair op.Add (lit 1) (lit 1)) ∷ []))) ≡ broken 1 orc.HeaderValue }
    ensures text_waits_for_count { type_fault (outside_of (calls 1 [] opcode.Zakinit (text (codes "a") ∷ [])))
        ≡ broken 1 orc.ArgCount }
    ensures text_waits_for_rates { type_fault (outside_of
        (calls 1 [] opcode.Zakinit (text (codes "a") ∷ value (lit 1) ∷ []))) ≡ broken 1 orc.RateMismatch }
    // A `zakinit` in an `if` counts, too, and the fault of a second one has the line of the second.
    ensures zak_in_if { type_fault zak_in_an_if ≡ None }
    ensures zak_in_if_counts { zak_spaces (zaks_of_block zak_in_an_if.zero) ≡ record { control = 3; audio = 2 } }
    ensures zak_twice { type_fault (orchestra [] (two (zak_of_one_and_two 1) (zak_of_one_and_two 2)) [])
        ≡ broken 2 orc.HeaderTwice }
    ensures zak_twice_in_if { settings_fault [] (one (choose 1
        (arm (pair op.Less (lit 1) (lit 0)) (one (zak_of_one_and_two 2))
        (otherwise (one (zak_of_one_and_two 4)))))) ≡ broken 4 orc.HeaderTwice }
{}
