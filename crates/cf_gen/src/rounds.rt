//! The rounds of a made script.

ghost use Rattle.std.specs.Prelude.{◌≡◌, ◌<◌, ◌+◌, ◌*◌, ◌^◌, [], ◌∷◌, ◌++◌, OnOk};
ghost use Rattle.cf_gen.specs.Scripts.{after, chosen, closes, crash_line, opens, puts, round, rounds};
ghost use Rattle.cf_gen.specs.declared.lines.Line.TheVariants.{Flush, Restart, Sync};

use crate::generators::Generator;
use crate::lines::Line;
use cf_base::{Key, OutOfMemory};

/// How many files there are.
const FILES: u32 = 8;

/// Adds the line of a new version of each file.
pub fn add_puts(lines: &mut Vec<Line>, g: &mut Generator) -> Result<(), OutOfMemory>
    ensures lines { OnOk result (lines.new.items ≡ lines.old.items ++ puts 8 0 g.old.state) }
    ensures after { OnOk result (g.new ≡ record g.old { state = after 16 g.old.state }) }
{
    for file in 0..FILES {
        let line = g.put(file);
        lines.push(line)?;
    }
    Ok(())
}

/// Adds the lines that open the files.
fn add_opens(lines: &mut Vec<Line>) -> Result<(), OutOfMemory>
    ensures { OnOk result (lines.new.items ≡ lines.old.items ++ opens 8 0) }
{
    for file in 0..FILES {
        lines.push(Line::Open { file })?;
    }
    Ok(())
}

/// Adds the lines that close the files, whose handles follow the first one.
fn add_closes(lines: &mut Vec<Line>, epoch: u32, first: u32) -> Result<(), OutOfMemory>
    requires { first + 8 < 2 ^ 32 }
    ensures { OnOk result (lines.new.items ≡ lines.old.items ++ closes 8 epoch first) }
{
    for number in first..first + FILES {
        let handle = Key { epoch, number };
        lines.push(Line::Close { handle })?;
    }
    Ok(())
}

/// Adds the lines that upload all and open the files.
pub fn add_start(lines: &mut Vec<Line>) -> Result<(), OutOfMemory>
    ensures { OnOk result (lines.new.items ≡ lines.old.items ++ Sync ∷ Flush ∷ opens 8 0) }
{
    lines.push(Line::Sync)?;
    lines.push(Line::Flush)?;
    add_opens(lines)
}

/// Adds a line alone.
fn add(lines: &mut Vec<Line>, line: Line) -> Result<(), OutOfMemory>
    ensures { OnOk result (lines.new.items ≡ lines.old.items ++ line ∷ []) }
{
    lines.push(line)?;
    Ok(())
}

/// Closes the files, uploads all and opens them again.
fn add_reopening(lines: &mut Vec<Line>, g: &mut Generator) -> Result<(), OutOfMemory>
    requires { g.old.first + 8 < 2 ^ 32 }
    ensures lines { OnOk result (lines.new.items ≡ lines.old.items ++ (closes 8 g.old.epoch g.old.first ++ Sync ∷ Flush ∷ opens 8 0)) }
    ensures after { OnOk result (g.new ≡ record g.old { first = g.old.first + 8 }) }
{
    add_closes(lines, g.epoch, g.first)?;
    add_start(lines)?;
    g.first += FILES;
    Ok(())
}

/// Cuts the power, restarts and opens the files.
fn add_restart(lines: &mut Vec<Line>, g: &mut Generator) -> Result<(), OutOfMemory>
    requires { g.old.epoch + 1 < 2 ^ 32 }
    ensures lines { OnOk result (lines.new.items ≡ lines.old.items ++ crash_line g.old.state ∷ Restart ∷ opens 8 0) }
    ensures after { OnOk result (g.new ≡ record { state = after 1 g.old.state; epoch = g.old.epoch + 1; first = 1 }) }
{
    let crash = g.crash();
    lines.push(crash)?;
    lines.push(Line::Restart)?;
    add_opens(lines)?;
    g.epoch += 1;
    g.first = 1;
    Ok(())
}

/// Adds the lines of a round of this kind on this file.
fn add_chosen(
    lines: &mut Vec<Line>,
    g: &mut Generator,
    kind: u32,
    file: u32,
) -> Result<(), OutOfMemory>
    requires file { file < 8 }
    requires epoch { g.old.epoch + 1 < 2 ^ 32 }
    requires first { g.old.first + 8 < 2 ^ 32 }
    ensures lines { OnOk result (lines.new.items ≡ lines.old.items ++ (chosen kind file g.old).0) }
    ensures after { OnOk result (g.new ≡ (chosen kind file g.old).1) }
{
    let handle = Key {
        epoch: g.epoch,
        number: g.first + file,
    };
    if kind < 3 {
        add(lines, g.read(handle))
    } else if kind == 3 {
        add(lines, g.write(handle))
    } else if kind == 4 {
        add(lines, g.size(handle))
    } else if kind == 5 {
        add(lines, g.put(file))
    } else if kind == 6 {
        add_reopening(lines, g)
    } else {
        add_restart(lines, g)
    }
}

/// Adds the lines of a round.
fn add_round(lines: &mut Vec<Line>, g: &mut Generator) -> Result<(), OutOfMemory>
    requires epoch { g.old.epoch + 1 < 2 ^ 32 }
    requires first { g.old.first + 8 < 2 ^ 32 }
    ensures lines { OnOk result (lines.new.items ≡ lines.old.items ++ (round g.old).0) }
    ensures after { OnOk result (g.new ≡ (round g.old).1) }
{
    let kind = g.draw(8);
    let file = g.draw(8);
    add_chosen(lines, g, kind, file)
}

/// Adds the lines of so many rounds.
pub fn add_rounds(lines: &mut Vec<Line>, mut g: Generator, count: u32) -> Result<(), OutOfMemory>
    requires epoch { g.epoch + count < 2 ^ 32 }
    requires first { g.first + 8 * (count + 1) < 2 ^ 32 }
    ensures { OnOk result (lines.new.items ≡ lines.old.items ++ rounds count g) }
{
    for _ in 0..count {
        add_round(lines, &mut g)?;
    }
    Ok(())
}
