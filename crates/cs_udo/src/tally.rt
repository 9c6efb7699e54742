// The numbers that statements count as, and the limits on instruments and on the statements of one
// instrument.
ghost use Rattle.std.specs.Prelude.{◌≡◌, ◌≤◌, ◌+◌, ℕ, List, IfOk, length, map};
ghost use Rattle.std.specs.List.{prefix_len};
ghost use Rattle.cs_grammar.specs.Tree as tree;
ghost use Rattle.cs_grammar.specs.declared.tree.Arm.{out-Arm};
ghost use Rattle.cs_udo.specs.Counted.{size_of, call_count, counts, counts_in, counts_in_arms, hit, numbers_hit};
ghost use Rattle.cs_udo.specs.{Counted.statements_hit, Counted.limits, Library.definitions_of, inner.Tallies.weight};
ghost use Rattle.cs_udo.specs.Expanded.{assignments, defined, template, opcodes_before};
ghost use Rattle.cs_udo.specs.inner.Tallies.{capped, after_count, after_counts, opcodes_priced, IsPriced, is_value};

use crate::library::Library;
use cs_base::{Limit, LimitHit, MOST_INSTRUMENTS, MOST_STATEMENTS, Name, OutOfMemory};
use cs_grammar::{Arg, Arm, Callee, Instr, OrcStmt, StmtWhat, Udo};
use std::alloc::Global;

/// The count so far.
#[derive(Clone, Copy)]
pub struct RunningCount {
    /// The sum, capped at `MOST_STATEMENTS + 1`, which means "too many".
    pub sum: u32,
    /// The line at which the sum exceeded `MOST_STATEMENTS`, if it did.
    pub passed: Option<u32>,
}

/// The definitions, with the cost of calling each of the first `costs.len()`.
#[derive(Clone, Copy)]
pub struct Prices<'l, 't> {
    library: &'l Library<'t>,
    costs: &'l [u32],
    ghost priced: { IsPriced (definitions_of library.now) costs.now },
}

// A number, capped at `MOST_STATEMENTS + 1`.
fn capped(number: usize) -> u32
    ensures { result ≡ capped number }
{
    number.min(MOST_STATEMENTS + 1) as u32
}

// The sum of two numbers, capped at `MOST_STATEMENTS + 1`.
fn plus(a: u32, b: u32) -> u32
    ensures { result ≡ capped (a + b) }
{
    capped(a as usize + b as usize)
}

// The count after one more statement.
fn add(before: RunningCount, line: u32, count: u32) -> RunningCount
    ensures { result ≡ after_count before (line, count) }
{
    let sum = plus(before.sum, count);
    let passed = if sum as usize > MOST_STATEMENTS {
        Some(line)
    } else {
        None
    };
    RunningCount {
        sum,
        passed: before.passed.or(passed),
    }
}

// The number of arguments before the first text.
fn values(args: &[Arg]) -> usize
    ensures count { result ≡ prefix_len is_value (map tree.argument args.now) }
    ensures within { result ≤ length args.now }
{
    let mut count: usize = 0;
    for arg in args {
        if matches!(arg, Arg::Text(_)) {
            return count;
        }
        count += 1;
    }
    count
}

// The number of assignments of arguments to `names` names, capped.
fn assigned(names: usize, args: &[Arg]) -> u32
    ensures { (line : ℕ) (xs : List (List ℕ)) → names ≡ length xs
        → result ≡ capped (size_of (assignments line xs (map tree.argument args.now))) }
{
    capped(names.min(values(args)))
}

// The number that a call counts as, capped.
fn price(prices: &Prices, results: &[Name], callee: &Callee, args: &[Arg]) -> u32
    ensures { (line : ℕ) → result ≡ capped (call_count line results.now callee.now (map tree.argument args.now)
        (defined (opcodes_priced prices.now.library.now prices.now.costs.now) callee.now)) }
{
    match prices.library.find(prices.costs.len(), callee) {
        None => 1,
        Some(found) => {
            let definition = found.definition;
            let given = assigned(definition.names.len(), args);
            let taken = capped(results.len().min(definition.outs.len()));
            plus(plus(given, taken), plus(prices.costs[found.place], 1))
        }
    }
}

#[cycle(tally)]
fn after_stmt(before: RunningCount, prices: &Prices, s: &OrcStmt) -> RunningCount
    ensures { result ≡ after_counts before
        (counts (opcodes_priced prices.now.library.now prices.now.costs.now) (tree.statement s.now)) }
{
    match &s.what {
        StmtWhat::Set(_, _) => add(before, s.line, 1),
        StmtWhat::Call(results, callee, args) => add(
            before,
            s.line,
            price(prices, results.as_slice(), callee, args),
        ),
        StmtWhat::Choose(list, els) => after_block(
            after_arms(add(before, s.line, 1), prices, list),
            prices,
            els,
        ),
    }
}

#[cycle(tally)]
fn after_block(before: RunningCount, prices: &Prices, stmts: &[OrcStmt]) -> RunningCount
    ensures { result ≡ after_counts before
        (counts_in (opcodes_priced prices.now.library.now prices.now.costs.now) (tree.block stmts.now)) }
{
    let mut known = before;
    for s in stmts {
        known = after_stmt(known, prices, s);
    }
    known
}

#[cycle(tally)]
fn after_arms(before: RunningCount, prices: &Prices, list: &[Arm]) -> RunningCount
    ensures { (els : tree.Block) → after_counts result
        (counts_in (opcodes_priced prices.now.library.now prices.now.costs.now) els)
        ≡ after_counts before
        (counts_in_arms (opcodes_priced prices.now.library.now prices.now.costs.now) (tree.arms els list.now)) }
{
    let mut known = before;
    for a in list {
        known = after_arm(known, prices, a);
    }
    known
}

#[cycle(tally)]
fn after_arm(before: RunningCount, prices: &Prices, a: &Arm) -> RunningCount
    ensures { result ≡ after_counts before
        (counts_in (opcodes_priced prices.now.library.now prices.now.costs.now)
        (tree.block (out-Arm a.now).body.items)) }
{
    after_block(before, prices, &a.body)
}

// The number that a definition counts as in each call, without its inputs and results, capped.
fn cost_of(prices: &Prices, definition: &Udo) -> u32
    ensures { result ≡ capped (weight (template
        (opcodes_priced prices.now.library.now prices.now.costs.now) (tree.definition definition.now))) }
{
    let none = RunningCount {
        sum: 0,
        passed: None,
    };
    let body = after_block(none, prices, &definition.body);
    plus(
        body.sum,
        assigned(definition.outs.len(), &definition.result),
    )
}

/// Returns the number that each definition counts as in each call, without its inputs and results, capped.
pub fn costs_of(alloc: Global, library: &Library) -> Result<Vec<u32>, OutOfMemory>
    ensures priced { IfOk result (λ made. IsPriced (definitions_of library.now) made.items) }
    ensures all { IfOk result (λ made. length made.items ≡ length (definitions_of library.now)) }
{
    let mut costs = Vec::new(alloc);
    for definition in library.definitions {
        let cost = cost_of(
            &Prices {
                library,
                costs: &costs,
            },
            definition,
        );
        costs.push(cost)?;
    }
    Ok(costs)
}

// The statement of an instrument with which the limit is exceeded, if any.
fn statements_hit(library: &Library, costs: &[u32], i: &Instr) -> Option<LimitHit>
    requires priced { IsPriced (definitions_of library.now) costs.now }
    requires all { length costs.now ≡ length (definitions_of library.now) }
    ensures { result
        ≡ statements_hit (opcodes_before i.now.line (definitions_of library.now)) (tree.block i.now.body.items) }
{
    let prices = Prices {
        library,
        costs: &costs[..library.before(i.line)],
    };
    let none = RunningCount {
        sum: 0,
        passed: None,
    };
    hit(
        Limit::Statements,
        after_block(none, &prices, &i.body).passed,
    )
}

fn hit(limit: Limit, line: Option<u32>) -> Option<LimitHit>
    ensures { result ≡ hit limit line }
{
    match line {
        None => None,
        Some(line) => Some(LimitHit { limit, line }),
    }
}

// The limit hit at this instrument, if its numbers, together with the `given` earlier ones, exceed
// `MOST_INSTRUMENTS`.
fn numbers_hit(given: usize, i: &Instr) -> Option<LimitHit>
    ensures { result ≡ numbers_hit given (tree.instrument i.now) }
{
    if given.saturating_add(i.numbers.len()) > MOST_INSTRUMENTS {
        Some(LimitHit {
            limit: Limit::Instruments,
            line: i.line,
        })
    } else {
        None
    }
}

/// Returns the first limit that the instruments exceed, or `None` if they exceed none.
pub fn first_limit(library: &Library, costs: &[u32], instrs: &[Instr]) -> Option<LimitHit>
    requires priced { IsPriced (definitions_of library.now) costs.now }
    requires all { length costs.now ≡ length (definitions_of library.now) }
    ensures { result ≡ limits (definitions_of library.now) 0 (map tree.instrument instrs.now) }
{
    let mut given: usize = 0;
    for i in instrs {
        let passed = numbers_hit(given, i).or(statements_hit(library, costs, i));
        if passed.is_some() {
            return passed;
        }
        given += i.numbers.len();
    }
    None
}
