// Random texts, and what both analysers print of them.
use crate::comparison::Comparison;
use crate::damage::{Lines, damage_bytes};
use crate::dice::Dice;
use crate::sheet::{Scale, Sheet, mixture, random_sheet, usual_scale};
use std::alloc::{AllocError, Global};
use std::io;

// The work of a node up to which busy periods stay short, in millionths of its time.
const TAME: u64 = 800_000;

const NEARLY_ALL: u64 = 995_000;

// A table whose nodes have time to spare.
fn tame_sheet(
    alloc: Global,
    dice: &mut Dice,
    scale: &Scale,
    earliest: u64,
) -> Result<Sheet, AllocError> {
    let mut sheet = random_sheet(alloc, dice, scale, earliest)?;
    let times = sheet.heaviest() / TAME;
    sheet.stretch(times.saturating_add(1));
    Ok(sheet)
}

// A small text with one to three damages.
fn damaged_text(alloc: Global, dice: &mut Dice) -> Result<Vec<u8>, AllocError> {
    let scale = Scale {
        nodes: dice.between(1, 4),
        chains: dice.between(0, 4),
        steps: dice.between(1, 3),
        period: 20,
        load: 40,
        extras: 20,
        slack: 4,
        reach: 200,
    };
    let mut sheet = tame_sheet(alloc, dice, &scale, 50)?;
    if dice.percent(5) {
        sheet.repeat_id();
    }
    let mut lines = Lines::of(alloc, &sheet)?;
    let times = dice.of(&[0, 1, 1, 2, 3, 4]);
    lines.damage(dice, times)?;
    let mut input = lines.text()?;
    if times == 0 || dice.percent(10) {
        damage_bytes(alloc, dice, &mut input)?;
    }
    Ok(input)
}

impl Comparison {
    fn compare_sheet(&mut self, sheet: &Sheet) -> io::Result<()> {
        let input = format!(in self.rt.alloc(); "{sheet}")?;
        self.compare_text(input.as_bytes())
    }

    // Tables as they are usual.
    fn usual(&mut self) -> io::Result<()> {
        let alloc = self.rt.alloc();
        let scale = usual_scale(&mut self.dice);
        let earliest = mixture(&mut self.dice);
        let sheet = tame_sheet(alloc, &mut self.dice, &scale, earliest)?;
        self.compare_sheet(&sheet)?;
        if self.dice.percent(5) {
            let input = format!(in alloc; "{sheet}")?;
            self.compare_room(input.as_bytes())?;
        }
        Ok(())
    }

    // Tables with up to all of a node's time used, and a little more.
    fn full(&mut self) -> io::Result<()> {
        let dice = &mut self.dice;
        let scale = Scale {
            nodes: dice.between(1, 2),
            chains: dice.between(1, 4),
            steps: dice.between(1, 2),
            period: dice.of(&[2, 4, 6]),
            load: dice.between(40, 80),
            extras: dice.of(&[0, 0, 20]),
            slack: 6,
            reach: 1_000,
        };
        let earliest = mixture(dice);
        let sheet = random_sheet(self.rt.alloc(), dice, &scale, earliest)?;
        self.compare_sheet(&sheet)
    }

    // Tables of fixed priorities with hardly any time to spare: the worst job is often not the first.
    fn busy(&mut self) -> io::Result<()> {
        let dice = &mut self.dice;
        let scale = Scale {
            nodes: 1,
            chains: dice.between(2, 4),
            steps: 1,
            period: dice.of(&[20, 60, 100]),
            load: dice.between(60, 95),
            extras: dice.of(&[0, 0, 30]),
            slack: 20,
            reach: 4_000,
        };
        let mut sheet = random_sheet(self.rt.alloc(), dice, &scale, 0)?;
        let times = sheet.heaviest() / NEARLY_ALL;
        sheet.stretch(times.saturating_add(1));
        self.compare_sheet(&sheet)
    }

    // Tables with end-to-end deadlines that hardly bind. Those without end are for chains of one step, whose jitters stay.
    fn loose(&mut self) -> io::Result<()> {
        let dice = &mut self.dice;
        let steps = dice.of(&[1, 4]);
        let earliest = if steps == 1 { mixture(dice) } else { 0 };
        let scale = Scale {
            nodes: dice.between(1, 3),
            chains: dice.between(1, 5),
            steps,
            period: dice.of(&[8, 30, 60]),
            load: dice.between(20, 75),
            extras: 40,
            slack: dice.of(&[20, 100_000]),
            reach: if steps == 1 { 1_000_000 } else { 2_000 },
        };
        let sheet = tame_sheet(self.rt.alloc(), dice, &scale, earliest)?;
        self.compare_sheet(&sheet)
    }

    // Tables of large numbers: fixed priorities near the limits, and earliest deadline as far as every instant can be tried.
    fn large(&mut self) -> io::Result<()> {
        let dice = &mut self.dice;
        let earliest = dice.of(&[0, 100]);
        let scale = Scale {
            nodes: dice.between(1, 2),
            chains: dice.between(1, 3),
            steps: if earliest == 0 { dice.between(1, 2) } else { 1 },
            period: if earliest == 0 { 1_000_000 } else { 2_000 },
            load: dice.between(20, 60),
            extras: 10,
            slack: 4,
            reach: 1_000_000,
        };
        let sheet = random_sheet(self.rt.alloc(), dice, &scale, earliest)?;
        self.compare_sheet(&sheet)
    }

    // Tables at and past the limits of chains and steps.
    fn crowded(&mut self) -> io::Result<()> {
        let alloc = self.rt.alloc();
        let dice = &mut self.dice;
        let scale = Scale {
            nodes: 8,
            chains: dice.between(2, 18),
            steps: dice.of(&[1, 4, 5, 8, 18]),
            period: 60,
            load: 40,
            extras: 5,
            slack: 8,
            reach: 2_000,
        };
        let earliest = mixture(dice);
        let sheet = tame_sheet(alloc, dice, &scale, earliest)?;
        let mut lines = Lines::of(alloc, &sheet)?;
        if dice.percent(40) {
            lines.damage(dice, 1)?;
        }
        self.compare_text(lines.text()?.as_slice())
    }

    // Damaged texts.
    fn damaged(&mut self) -> io::Result<()> {
        let input = damaged_text(self.rt.alloc(), &mut self.dice)?;
        self.compare_text(input.as_slice())?;
        if self.dice.percent(5) {
            self.compare_room(input.as_slice())?;
        }
        Ok(())
    }

    // Rarer texts, at every so many turns.
    fn rarer(&mut self, turn: u64) -> io::Result<()> {
        if turn % 8 == 0 {
            self.full()?;
            self.loose()?;
            self.busy()?;
        }
        if turn % 16 == 0 {
            self.crowded()?;
        }
        if turn % 100 == 0 {
            self.large()?;
        }
        Ok(())
    }

    pub fn compare_texts(&mut self) -> io::Result<()> {
        for turn in 0..7000u64 {
            self.usual()?;
            self.damaged()?;
            self.rarer(turn)?;
        }
        Ok(())
    }
}
