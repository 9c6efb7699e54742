// The values of the arguments, from clap's matches.
ghost use Rattle.std.specs.Prelude.{◌≡◌, List, codes, option_map, unwrap_or};
ghost use Rattle.cs_arguments.specs.Orders.{asked_in, piece_in};
ghost use Rattle.cs_arguments.specs.Reading.{Use, asked_by, number_of, piece_of, value_of, width_of};
ghost use Rattle.cs_command.specs.inner.Matched.{Holds};

use clap::ArgMatches;
use cs_arguments::{DemoNotes, Order, Source, Workers};
use cs_base::SampleWidth;

/// Returns the order that the matches hold, or None if names and `--demo` don't fit each other.
pub fn order_of<'w>(matches: &ArgMatches<'w>) -> Option<Order<'w>>
    requires { (uses : List Use) × Holds uses matches.now }
    ensures { (uses : List Use) → Holds uses matches.now → option_map asked_in result ≡ asked_by uses }
{
    let source = source_of(
        notes_of(matches),
        matches.get_str("ORC"),
        matches.get_str("SCO"),
    );
    match source {
        Some(source) => Some(Order {
            workers: workers_of(matches),
            sound_file: sound_file_of(matches),
            width: width(matches.get_flag("3")),
            silent: matches.get_flag("n"),
            turns: matches.get_flag("turns"),
            pool: matches.get_flag("pool"),
            source,
        }),
        None => None,
    }
}

// Returns the source of the orchestra and the score, by the notes of a demo and the names.
fn source_of<'w>(
    demo: Option<DemoNotes>,
    first: Option<&'w str>,
    second: Option<&'w str>,
) -> Option<Source<'w>>
    ensures { option_map piece_in result
        ≡ piece_of demo (option_map (λ s. s.now) first.entry) (option_map (λ s. s.now) second.entry) }
{
    match (demo, first, second) {
        (Some(notes), None, None) => Some(Source::Demo { notes }),
        (None, Some(orchestra), Some(score)) => Some(Source::TwoFiles { orchestra, score }),
        (None, Some(csd), None) if csd.as_bytes().ends_with(b".csd") => {
            Some(Source::OneFile { csd })
        }
        _ => None,
    }
}

// Returns the number of workers, one without `-j`.
fn workers_of(matches: &ArgMatches) -> Workers
    requires { (uses : List Use) × Holds uses matches.now }
    ensures { (uses : List Use) → Holds uses matches.now
        → result ≡ unwrap_or (option_map number_of (value_of (codes "j") uses)) 1 }
{
    match matches.get_one::<u32>("j") {
        Some(number) => Workers::new(number),
        None => Workers::new(1),
    }
}

// Returns the number of notes of a demo, or None without `--demo`.
fn notes_of(matches: &ArgMatches) -> Option<DemoNotes>
    requires { (uses : List Use) × Holds uses matches.now }
    ensures { (uses : List Use) → Holds uses matches.now
        → result ≡ option_map number_of (value_of (codes "demo") uses) }
{
    match matches.get_one::<u32>("demo") {
        Some(number) => Some(DemoNotes::new(number)),
        None => None,
    }
}

// Returns the name of the sound file, `test.wav` without `-o`.
fn sound_file_of<'w>(matches: &ArgMatches<'w>) -> &'w str
    ensures { (uses : List Use) → Holds uses matches.now
        → result.now ≡ unwrap_or (value_of (codes "o") uses) (codes "test.wav") }
{
    match matches.get_str("o") {
        Some(name) => name,
        None => "test.wav",
    }
}

fn width(is_wide: bool) -> SampleWidth
    ensures { result ≡ width_of is_wide }
{
    if is_wide {
        SampleWidth::ThreeBytes
    } else {
        SampleWidth::TwoBytes
    }
}
