// The functions that Rust and C link: numbers and slices only, no `requires`. A load, a read or a drawing answers with the refusal's number, 0
// for none; a load's place is always 0, and a read's has a function of its own. The sizing figure of a refused file is 0. A judgement is
// one number, and its refusal's place has a function of its own. A quote is one number too; its refusals are the file's, so the read's place serves,
// as it does for a list of week costs. A run of asks has its refusal's number, and the place from a function of its own. Each calls one function
// below and leaves it to `codes` to turn the answer into a number.
#![tactic(auto)]

ghost use Rattle.std.specs.Prelude.{◌≡◌, length};
ghost use Rattle.model.specs.Bytes.{load_of, loaded_into};
ghost use Rattle.model.specs.Reading.{read_of};
ghost use Rattle.model.specs.Words.{problem_of};
ghost use Rattle.model.specs.Sizing.{sizing_of};
ghost use Rattle.model.specs.Schedule.{schedule_of};
ghost use Rattle.model.specs.Drawing.{draw_verdict, drawn_into};
ghost use Rattle.model.specs.Judgement.{judge_of};
ghost use Rattle.model.specs.Refusal.{run_verdict};
ghost use Rattle.model.specs.Asks.{Outcome};
ghost use Rattle.quotes.specs.Quotes.{quote_with, run_quote, upkeep_quote, costs_verdict, costs_into, KeptIfRefused};
ghost use Rattle.codes.specs.Codes.{refused_by, refused_at, figure_refused_by, given, judged_code, judged_place, quoted_code};

// Bytes to words: the refusal's number, 0 where a word for each four bytes was written. Its place is always 0.
#[unsafe(no_mangle)]
pub extern "C" fn novelbrisca_load(bytes: &[u8], words: &mut [u32]) -> u32
    ensures answer { result ≡ figure_refused_by (load_of bytes.now (length words.old)) }
    ensures buffer { words.new ≡
        loaded_into (load_of bytes.now (length words.old)) bytes.now words.old }
{
    codes::figure_refusal(decoder::load(bytes, words))
}

// A plan file: the refusal's number, 0 where it is accepted.
#[unsafe(no_mangle)]
pub extern "C" fn novelbrisca_read(words: &[u32]) -> u32
    ensures { result ≡ refused_by (read_of words.now) }
{
    codes::refusal_number(decoder::read(words))
}

// The place of that refusal, 0 where the file is accepted.
#[unsafe(no_mangle)]
pub extern "C" fn novelbrisca_read_place(words: &[u32]) -> usize
    ensures { result ≡ refused_at (read_of words.now) }
{
    codes::refusal_place(decoder::read(words))
}

// The sizing figure, 0 where the file is refused; number and place are then those of the file.
#[unsafe(no_mangle)]
pub extern "C" fn novelbrisca_sizing(words: &[u32]) -> usize
    ensures { result ≡ given (sizing_of words.now) }
{
    codes::number_given(sizing::sizing(words))
}

// A grid: the cost where it is sound, 2^32 and the smallest number among the formulas broken, or 2^33 and the refusal's number. A cost is far
// below 2^32 and there are eight formulas, so no two cases meet.
#[unsafe(no_mangle)]
pub extern "C" fn novelbrisca_judge(words: &[u32], grid: &[u8]) -> u64
    ensures { result ≡ judged_code (judge_of words.now grid.now) }
{
    codes::judgement_code(checker::judge(words, grid))
}

// The place of that refusal, 0 where the grid is judged.
#[unsafe(no_mangle)]
pub extern "C" fn novelbrisca_judge_place(words: &[u32], grid: &[u8]) -> usize
    ensures { result ≡ judged_place (judge_of words.now grid.now) }
{
    codes::judgement_place(checker::judge(words, grid))
}

// A schedule laid out as a grid in the lent bytes: the refusal's number, 0 where the grid was written. The place is that of
// `novelbrisca_read_place` for a refusal of the file, and 0 for 17.
#[unsafe(no_mangle)]
pub extern "C" fn novelbrisca_draw(
    words: &[u32],
    starts: &[u32],
    runs: &[u32],
    grid: &mut [u8],
) -> u32
    ensures answer { result ≡ refused_by (draw_verdict words.now (length grid.old)) }
    ensures buffer { grid.new ≡
        drawn_into (draw_verdict words.now (length grid.old)) (problem_of words.now)
        (schedule_of starts.now runs.now) grid.old }
{
    codes::refusal_number(schedule::draw(words, starts, runs, grid))
}

// The cheapest run of a week, from 1, with these units out: its cost times 2^32 and its number, 2^62 where there is none, or 2^63 and the number
// of the file's refusal. The place is that of `novelbrisca_read_place`.
#[unsafe(no_mangle)]
pub extern "C" fn novelbrisca_cheapest_run(words: &[u32], week: usize, out: u32) -> u64
    ensures { result ≡ quoted_code (quote_with (read_of words.now) (run_quote (problem_of words.now) week out)) }
{
    codes::quote_code(quotes::cheapest_run(words, week, out))
}

// What the overhaul of a unit, from 1, costs in maintenance from a permitted start: the cost times 2^32 and the start, 2^62 where there is no
// such unit or the start is not permitted, or 2^63 and the number of the file's refusal.
#[unsafe(no_mangle)]
pub extern "C" fn novelbrisca_upkeep(words: &[u32], unit: usize, start: usize) -> u64
    ensures { result ≡ quoted_code (quote_with (read_of words.now) (upkeep_quote (problem_of words.now) unit start)) }
{
    codes::quote_code(quotes::upkeep(words, unit, start))
}

// What the cheapest runs of queried weeks cost, in the lent words: the refusal's number, 0 where they were written. A query is a week, from 1,
// times 65,536 and the units out. The place is that of `novelbrisca_read_place` for a refusal of the file, and 0 for 17.
#[unsafe(no_mangle)]
pub extern "C" fn novelbrisca_week_costs(
    words: &[u32],
    queries: &[u32],
    scratch: &mut [u32],
    costs: &mut [u32],
) -> u32
    ensures answer { result ≡
        refused_by (costs_verdict words.now (length queries.now) (length costs.old)) }
    ensures buffer { costs.new ≡
        costs_into (costs_verdict words.now (length queries.now) (length costs.old))
        (problem_of words.now) queries.now costs.old }
    ensures lent { KeptIfRefused
        (costs_verdict words.now (length queries.now) (length costs.old))
        scratch.old scratch.new }
{
    codes::refusal_number(quotes::quote_weeks(words, queries, scratch, costs))
}

// A run of asks, each answered in its block of the lent words: the refusal's number, 0 where all were answered. An ask makes at most
// twice its budget of tries (D105; not proved).
#[unsafe(no_mangle)]
pub extern "C" fn novelbrisca_run(
    words: &[u32],
    asks: &[u32],
    answers: &mut [u32],
    table: &mut [u32],
    scratch: &mut [u32],
) -> u32
    ensures answer { result ≡ refused_by (run_verdict words.now asks.now
        (length table.old) (length answers.old) (length scratch.old)) }
    ensures lent { Outcome (run_verdict words.now asks.now
        (length table.old) (length answers.old) (length scratch.old))
        words.now asks.now answers.old table.old scratch.old
        answers.new table.new scratch.new }
{
    codes::refusal_number(planner::run(words, asks, answers, table, scratch))
}

// The place of that refusal, 0 where the asks are answered; lent memory by its numbers of words.
#[unsafe(no_mangle)]
pub extern "C" fn novelbrisca_run_place(
    words: &[u32],
    asks: &[u32],
    answers: usize,
    table: usize,
    scratch: usize,
) -> usize
    ensures { result ≡ refused_at (run_verdict words.now asks.now table answers scratch) }
{
    codes::refusal_place(asks::run_verdict(words, asks, table, answers, scratch))
}
