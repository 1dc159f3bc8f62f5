// What a replay counts and prints: a line for each kind of case, and a line for each case that differs.
ghost use Rattle.std.specs.Prelude.{◌≡◌, ◌<◌, cond, replicate, IfOk, IfErr};
ghost use Rattle.replay_report.specs.Report.{one_more, refused_more, stored_answer, stored_content};

use std::fmt;

// A case: the number it was to be refused with, 0 where it was to be accepted, and whether the answer agrees with the stored one.
// Not an Option or a Result: a case has both, and the refusals of cases that differ are counted too.
#[derive(Clone, Copy, Debug, PartialEq, Eq)]
pub struct Judged {
    pub refusal: u64,
    pub agrees: bool,
}

// The answer that is stored as a refusal, 0 for none, and as what an accepted call gives.
pub fn stored<T: Drop>(refusal: u64, given: T) -> Result<T, u64>
    ensures { result ≡ stored_answer refusal given }
{
    if refusal == 0 {
        Ok(given)
    } else {
        Err(refusal)
    }
}

// Cases of one kind: how many, how many agree with the stored answer, how many differ, and how many were to be refused, by number.
#[derive(Clone, Copy, Debug, PartialEq, Eq)]
pub struct Count {
    pub cases: u64,
    pub agree: u64,
    pub differ: u64,
    pub refused: [u64; 30],
}

// One more, up to the largest number.
pub fn one_more(n: u64) -> u64
    ensures { result ≡ one_more n }
{
    n.saturating_add(1)
}

// The refusals with one of that number more.
fn refused_more(refused: [u64; 30], number: u64) -> [u64; 30]
    ensures { result ≡ refused_more refused number }
{
    let mut all = refused;
    if 0 < number {
        if number < 30 {
            let k = number as usize;
            all[k] = one_more(all[k]);
        }
    }
    all
}

impl Count {
    // No case yet.
    pub fn new() -> Count
        ensures { (result.cases ≡ 0) × (result.agree ≡ 0) × (result.differ ≡ 0) × (result.refused ≡ replicate 30 0) }
    {
        Count {
            cases: 0,
            agree: 0,
            differ: 0,
            refused: [0; 30],
        }
    }

    // One case more.
    pub fn add(&mut self, judged: Judged)
        ensures cases_value { (self.new.cases ≡ one_more self.old.cases) × (self.new.refused ≡ refused_more self.old.refused judged.refusal) }
        ensures agree_value { (self.new.agree ≡ cond judged.agrees (one_more self.old.agree) self.old.agree) × (self.new.differ ≡ cond judged.agrees self.old.differ (one_more self.old.differ)) }
    {
        let refused = refused_more(self.refused, judged.refusal);
        self.refused = refused;
        self.cases = one_more(self.cases);
        if judged.agrees {
            self.agree = one_more(self.agree);
        } else {
            self.differ = one_more(self.differ);
        }
    }
}

// Cases, agreements, differences, then the refusals that occur as number:count.
impl fmt::Display for Count {
    fn fmt<W: fmt::Write>(&self, f: &mut fmt::Formatter<W>) -> fmt::Result {
        let (cases, agree, differ) = (self.cases, self.agree, self.differ);
        write!(
            f,
            "cases\t{cases}\tagree\t{agree}\tdiffer\t{differ}\trefused"
        )?;
        for (number, count) in self.refused.iter().enumerate() {
            if 0 < *count {
                write!(f, "\t{number}:{count}")?;
            }
        }
        Ok(())
    }
}

// The cases of one kind: its name in the line of a case that differs, its title in the line of counts, and its counts.
#[derive(Clone, Copy, Debug)]
pub struct Cases {
    pub name: &'static str,
    pub title: &'static str,
    pub count: Count,
}

impl Cases {
    // A kind with no case yet.
    pub fn new(name: &'static str, title: &'static str) -> Cases
        ensures named { (result.name ≡ name.entry) × (result.title ≡ title.entry) }
        ensures none { (result.count.cases ≡ 0) × (result.count.agree ≡ 0) × (result.count.differ ≡ 0) × (result.count.refused ≡ replicate 30 0) }
    {
        Cases {
            name,
            title,
            count: Count::new(),
        }
    }

    // One case more; one that differs is printed by its name and its place, from 1. Where that line cannot be written the counts still tell.
    pub fn add(&mut self, rt: &impl Print, judged: Judged)
        ensures named { (self.new.name ≡ self.old.name) × (self.new.title ≡ self.old.title) }
        ensures cases_value { (self.new.count.cases ≡ one_more self.old.count.cases) × (self.new.count.refused ≡ refused_more self.old.count.refused judged.refusal) }
        ensures agree_value { (self.new.count.agree ≡ cond judged.agrees (one_more self.old.count.agree) self.old.count.agree) × (self.new.count.differ ≡ cond judged.agrees self.old.count.differ (one_more self.old.count.differ)) }
    {
        self.count.add(judged);
        if judged.agrees {
            return;
        }
        let (name, cases) = (self.name, self.count.cases);
        let _ = println!(rt; "{name}\tdiffers in case\t{cases}");
    }
}

// The title and the counts.
impl fmt::Display for Cases {
    fn fmt<W: fmt::Write>(&self, f: &mut fmt::Formatter<W>) -> fmt::Result {
        let (title, count) = (self.title, &self.count);
        write!(f, "{title}\t{count}")
    }
}

// What a buffer is to hold after a call: what is stored, or what it held before where the call is refused.
pub fn after_call<'a, T>(refusal: u64, given: &'a [T], before: &'a [T]) -> &'a [T]
    ensures { result.now ≡ stored_content refusal given.now before.now }
{
    if refusal == 0 { given } else { before }
}

// The refusal of a stored answer, 0 for none, and what a buffer is to hold after its call.
// Both are compared with what the call gave: a Result would be taken apart again for that.
pub fn told_of<'a, T: Drop>(answer: &'a Result<Vec<T>, u64>, before: &'a [T]) -> (u64, &'a [T])
    ensures accepted { IfOk answer.now (λ given. (result.0 ≡ 0) × (result.1.now ≡ given.items)) }
    ensures refused { IfErr answer.now (λ number. (result.0 ≡ number) × (result.1.now ≡ before.now)) }
{
    match answer {
        Ok(given) => (0, given.as_slice()),
        Err(number) => (*number, before),
    }
}
