// The options, flags and names that the program accepts.
ghost use Rattle.std.specs.Prelude.{◌≡◌, pos, false, codes, Some, None};
ghost use Rattle.clap.specs.Words.{rule_of};
ghost use Rattle.clap.specs.declared.builder.value_parser.ValueParser.TheVariants.{NonEmptyString, Signed};
ghost use Rattle.cs_arguments.specs.Command.{made_flag, made_option, parser_of};

use clap::builder::ValueParser;
use clap::{Arg, ArgAction};
use std::alloc::Global;

/// Returns a flag of one letter, whose text is the letter.
pub fn letter_flag<'w>(alloc: Global, text: &'w str, letter: char) -> Arg<'w>
    ensures rule { rule_of result ≡ made_flag text.entry.now None (Some letter) }
    ensures local { result.global ≡ false }
{
    Arg::new(alloc, text)
        .short(letter)
        .action(ArgAction::SetTrue)
}

/// Returns a flag with a long name.
pub fn long_flag<'w>(alloc: Global, name: &'w str) -> Arg<'w>
    ensures rule { rule_of result ≡ made_flag name.entry.now (Some name.entry.now) None }
    ensures local { result.global ≡ false }
{
    Arg::new(alloc, name).long(name).action(ArgAction::SetTrue)
}

/// Returns an option of one letter, whose text is the letter, and whose values `parser` reads.
pub fn letter_option<'w>(
    alloc: Global,
    text: &'w str,
    letter: char,
    parser: ValueParser<'w>,
) -> Arg<'w>
    requires { parser_of text.now ≡ parser }
    ensures rule { rule_of result ≡ made_option text.entry.now None (Some letter) }
    ensures local { result.global ≡ false }
{
    Arg::new(alloc, text)
        .short(letter)
        .action(ArgAction::Set)
        .value_parser(parser)
}

/// Returns the option `--demo N`.
pub fn demo_option<'w>(alloc: Global) -> Arg<'w>
    ensures rule { rule_of result ≡ made_option (codes "demo") (Some (codes "demo")) None }
    ensures local { result.global ≡ false }
{
    Arg::new(alloc, "demo")
        .long("demo")
        .action(ArgAction::Set)
        .value_parser(from_one_to(10_000))
}

/// Returns a name: of the orchestra, of a file with both texts, or of the score.
pub fn name<'w>(alloc: Global, key: &'w str) -> Arg<'w>
    requires { parser_of key.now ≡ NonEmptyString }
    ensures rule { rule_of result ≡ made_option key.entry.now None None }
    ensures local { result.global ≡ false }
{
    Arg::new(alloc, key)
        .action(ArgAction::Set)
        .value_parser(ValueParser::NonEmptyString)
}

/// Returns a parser of an integer from 1 to `most`.
pub fn from_one_to<'w>(most: u16) -> ValueParser<'w>
    ensures { result ≡ Signed (pos 1) (pos most) }
{
    clap::value_parser!(u32).range(1..=i64::from(most))
}
