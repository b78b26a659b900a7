//! The operand stack: pieces for all levels, of which the innermost begins at a height.

ghost use Rattle.std.specs.Prelude.{◌≡◌, ◌≤◌, ◌∷◌, ◌++◌, length, IsTrue, Bool, List, Some, None, OnOk, [], IfOk, MatchOption, if◌then◌else◌, reverse, take, drop, is_some, true};
ghost use Rattle.std.specs.Option.{option_to_list};
ghost use Rattle.std.specs.Bool.{OnTrue, OnFalse};
ghost use Rattle.core_body.specs.Machine.{pops, put, top, second, third, none_left, like, under, all_below};
ghost use Rattle.core_body.specs.Signatures.{taken};
ghost use Rattle.core_body.specs.Typing.{operands};
ghost use Rattle.core_body.specs.Views.{context_of};

use crate::operand::{Operand, below};
use crate::piece::{Met, Piece, bite, is_nothing, nothing, split};
use crate::shapes::Takes;
use crate::source::{Run, Source};
use crate::spaces::Scope;
use virt_base::{CoreType, NoMemory};

#[derive(Drop)]
pub struct Stack {
    pub pieces: Vec<Piece>,
    pub height: usize,
    pub ghost bounded: { height ≤ length pieces.items },
}

/// A place in the level: a part of a piece, and how many pieces lie below it.
#[derive(Clone, Copy)]
pub struct Rest {
    pub at: usize,
    pub part: Piece,
}

/// The topmost operand from a place down, and the place below it.
#[derive(Clone, Copy)]
pub struct Top {
    pub operand: Operand,
    pub rest: Rest,
}

/// How the operands from a place down met the types due. `Short` of them, the level has no more.
#[derive(Clone, Copy)]
pub enum Walk {
    Differs,
    Short,
    Left(Rest),
}

impl Stack {
    ghost use Rattle.core_body.specs.Sources.{spelled, listed};
    ghost use Rattle.core_body.specs.Pieces.{run_of, piece_of, pieces_of};
    ghost use Rattle.core_body.specs.Stack.{level_of, below_of, down_from, rest_of, Lies, Ready, LiesBelow, outcome, EndsIn};

    fn put(&mut self, scope: &Scope<'_>, piece: Piece) -> Result<(), NoMemory>
        ensures level { OnOk result (level_of (context_of scope.now) self.new ≡ piece_of (context_of scope.now) piece ++ level_of (context_of scope.now) self.old) }
        ensures outer { OnOk result (below_of self.new ≡ below_of self.old) }
        ensures height { self.new.height ≡ self.old.height }
    {
        let _ = scope;
        self.pieces.push(piece)?;
        Ok(())
    }

    pub fn push(&mut self, scope: &Scope<'_>, operand: Operand) -> Result<(), NoMemory>
        ensures level { OnOk result (level_of (context_of scope.now) self.new ≡ operand ∷ level_of (context_of scope.now) self.old) }
        ensures outer { OnOk result (below_of self.new ≡ below_of self.old) }
        ensures height { self.new.height ≡ self.old.height }
    {
        self.put(scope, Piece::One(operand))
    }

    /// Puts on an operand of each type, the last on top.
    pub fn push_all(&mut self, scope: &Scope<'_>, source: Source) -> Result<(), NoMemory>
        ensures level { OnOk result (level_of (context_of scope.now) self.new ≡ spelled (context_of scope.now) source ++ level_of (context_of scope.now) self.old) }
        ensures outer { OnOk result (below_of self.new ≡ below_of self.old) }
        ensures height { OnOk result (self.new.height ≡ self.old.height) }
    {
        let types = scope.listed(source);
        let count = types.len();
        if count == 0 {
            return Ok(());
        }
        if count == 1 {
            self.push(scope, Operand::Known(types[0]))?;
            return Ok(());
        }
        self.put(
            scope,
            Piece::Many(Run {
                of: source,
                len: count,
            }),
        )?;
        Ok(())
    }

    /// The top of the level.
    fn place(&self, scope: &Scope<'_>) -> Rest
        ensures rest { rest_of (context_of scope.now) self.now result ≡ level_of (context_of scope.now) self.now }
        ensures lies { Lies (context_of scope.now) self.now result }
    {
        let _ = scope;
        Rest {
            at: self.pieces.len(),
            part: nothing(),
        }
    }

    /// The topmost operand from a place down, if there is one.
    fn first(&self, scope: &Scope<'_>, from: Rest) -> Option<Top>
        requires { Lies (context_of scope.now) self.now from }
        ensures found { MatchOption result (rest_of (context_of scope.now) self.now from ≡ []) (λ t. rest_of (context_of scope.now) self.now from ≡ t.operand ∷ rest_of (context_of scope.now) self.now t.rest) }
        ensures lies { LiesBelow (context_of scope.now) self.now result }
    {
        match split(scope, from.part) {
            Some(parted) => Some(Top {
                operand: parted.operand,
                rest: Rest {
                    at: from.at,
                    part: parted.part,
                },
            }),
            None => self.first_below(scope, from.at),
        }
    }

    /// The topmost operand of the pieces below a place.
    fn first_below(&self, scope: &Scope<'_>, from: usize) -> Option<Top>
        requires low { self.now.height ≤ from }
        requires high { from ≤ length self.now.pieces.items }
        ensures found { MatchOption result (down_from (context_of scope.now) self.now from ≡ []) (λ t. down_from (context_of scope.now) self.now from ≡ t.operand ∷ rest_of (context_of scope.now) self.now t.rest) }
        ensures lies { LiesBelow (context_of scope.now) self.now result }
    {
        let mut at = from;
        while at > self.height {
            at -= 1;
            match split(scope, self.pieces[at]) {
                Some(parted) => return Some(Top {
                    operand: parted.operand,
                    rest: Rest {
                        at,
                        part: parted.part,
                    },
                }),
                None => {}
            }
        }
        None
    }

    /// How the operands from a place down meet a list of types, the last first.
    fn walk(&self, scope: &Scope<'_>, from: Rest, due: Source) -> Walk
        requires { Lies (context_of scope.now) self.now from }
        ensures met { (dead : Bool) → pops dead (rest_of (context_of scope.now) self.now from) (spelled (context_of scope.now) due) ≡ outcome (context_of scope.now) self.now dead result }
        ensures lies { EndsIn (context_of scope.now) self.now result }
    {
        let whole = Run {
            of: due,
            len: scope.listed(due).len(),
        };
        match bite(scope, from.part, whole) {
            Some(met) => self.descend(scope, from.at, met),
            None => Walk::Differs,
        }
    }

    /// How the pieces below a place meet the types that are still due.
    fn descend(&self, scope: &Scope<'_>, from: usize, first: Met) -> Walk
        requires { Ready (context_of scope.now) self.now from first }
        ensures met { (dead : Bool) → pops dead (rest_of (context_of scope.now) self.now (record { at = from; part = first.part })) (run_of (context_of scope.now) first.due) ≡ outcome (context_of scope.now) self.now dead result }
        ensures lies { EndsIn (context_of scope.now) self.now result }
    {
        let mut at = from;
        let mut met = first;
        while met.due.len > 0 {
            if at <= self.height {
                return Walk::Short;
            }
            at -= 1;
            match bite(scope, self.pieces[at], met.due) {
                Some(next) => met = next,
                None => return Walk::Differs,
            }
        }
        Walk::Left(Rest { at, part: met.part })
    }

    /// Takes off all but that many pieces.
    fn cut(&mut self, scope: &Scope<'_>, at: usize)
        requires { self.old.height ≤ at }
        ensures level { level_of (context_of scope.now) self.new ≡ down_from (context_of scope.now) self.old at }
        ensures outer { below_of self.new ≡ below_of self.old }
        ensures height { self.new.height ≡ self.old.height }
    {
        let _ = scope;
        self.pieces.truncate(at);
    }

    /// Takes off what lies above a part of a piece.
    fn keep_part(&mut self, scope: &Scope<'_>, rest: Rest)
        requires { Lies (context_of scope.now) self.old rest }
        ensures level { level_of (context_of scope.now) self.new ≡ rest_of (context_of scope.now) self.old rest }
        ensures outer { below_of self.new ≡ below_of self.old }
        ensures height { self.new.height ≡ self.old.height }
    {
        let _ = scope;
        if rest.at >= self.pieces.len() {
            return;
        }
        self.pieces.truncate(rest.at + 1);
        self.pieces[rest.at] = rest.part;
    }

    /// Takes off what lies above a place.
    fn keep(&mut self, scope: &Scope<'_>, rest: Rest)
        requires { Lies (context_of scope.now) self.old rest }
        ensures level { level_of (context_of scope.now) self.new ≡ rest_of (context_of scope.now) self.old rest }
        ensures outer { below_of self.new ≡ below_of self.old }
        ensures height { self.new.height ≡ self.old.height }
    {
        if is_nothing(rest.part) {
            self.cut(scope, rest.at);
            return;
        }
        self.keep_part(scope, rest);
    }

    /// Takes the topmost operand of the level off, if there is one.
    fn peel(&mut self, scope: &Scope<'_>) -> Option<Operand>
        ensures level { MatchOption result ((level_of (context_of scope.now) self.old ≡ []) × (level_of (context_of scope.now) self.new ≡ [])) (λ o. level_of (context_of scope.now) self.old ≡ o ∷ level_of (context_of scope.now) self.new) }
        ensures outer { below_of self.new ≡ below_of self.old }
        ensures height { self.new.height ≡ self.old.height }
    {
        if self.pieces.len() <= self.height {
            return None;
        }
        let last = self.pieces.len() - 1;
        // Most operands stand alone.
        if let Piece::One(operand) = self.pieces[last] {
            self.cut(scope, last);
            return Some(operand);
        }
        self.peel_part(scope)
    }

    /// Takes the topmost operand of the level off, of whatever piece.
    fn peel_part(&mut self, scope: &Scope<'_>) -> Option<Operand>
        ensures level { MatchOption result ((level_of (context_of scope.now) self.old ≡ []) × (level_of (context_of scope.now) self.new ≡ [])) (λ o. level_of (context_of scope.now) self.old ≡ o ∷ level_of (context_of scope.now) self.new) }
        ensures outer { below_of self.new ≡ below_of self.old }
        ensures height { self.new.height ≡ self.old.height }
    {
        match self.first(scope, self.place(scope)) {
            Some(top) => {
                self.keep(scope, top.rest);
                Some(top.operand)
            }
            None => None,
        }
    }

    /// Takes one operand off, below the one that is due. In dead code there is always one.
    pub fn take(&mut self, scope: &Scope<'_>, dead: bool, due: Operand) -> bool
        ensures yes { OnTrue result ((ps : List Operand) → pops dead (level_of (context_of scope.now) self.old) (due ∷ ps) ≡ pops dead (level_of (context_of scope.now) self.new) ps) }
        ensures no { OnFalse result ((ps : List Operand) → pops dead (level_of (context_of scope.now) self.old) (due ∷ ps) ≡ None) }
        ensures outer { below_of self.new ≡ below_of self.old }
        ensures height { self.new.height ≡ self.old.height }
    {
        match self.peel(scope) {
            Some(found) => below(found, due),
            None => dead,
        }
    }

    /// Takes off an operand of each type, the last first.
    pub fn take_all(&mut self, scope: &Scope<'_>, dead: bool, due: Source) -> bool
        ensures yes { OnTrue result (pops dead (level_of (context_of scope.now) self.old) (spelled (context_of scope.now) due) ≡ Some (level_of (context_of scope.now) self.new)) }
        ensures no { OnFalse result (pops dead (level_of (context_of scope.now) self.old) (spelled (context_of scope.now) due) ≡ None) }
        ensures outer { below_of self.new ≡ below_of self.old }
        ensures height { self.new.height ≡ self.old.height }
    {
        let types = scope.listed(due);
        // So few are taken sooner one by one than by their name.
        if types.len() <= 8 {
            return self.take_each(scope, dead, types);
        }
        self.take_long(scope, dead, due)
    }

    /// Takes off an operand of each type, one by one.
    fn take_each(&mut self, scope: &Scope<'_>, dead: bool, types: &[CoreType]) -> bool
        ensures yes { OnTrue result (pops dead (level_of (context_of scope.now) self.old) (operands types.now) ≡ Some (level_of (context_of scope.now) self.new)) }
        ensures no { OnFalse result (pops dead (level_of (context_of scope.now) self.old) (operands types.now) ≡ None) }
        ensures outer { below_of self.new ≡ below_of self.old }
        ensures height { self.new.height ≡ self.old.height }
    {
        let mut left = types.len();
        while left > 0 {
            if !self.take(scope, dead, Operand::Known(types[left - 1])) {
                return false;
            }
            left -= 1;
        }
        true
    }

    /// Takes off an operand of each type of a list of whatever length.
    fn take_long(&mut self, scope: &Scope<'_>, dead: bool, due: Source) -> bool
        ensures yes { OnTrue result (pops dead (level_of (context_of scope.now) self.old) (spelled (context_of scope.now) due) ≡ Some (level_of (context_of scope.now) self.new)) }
        ensures no { OnFalse result (pops dead (level_of (context_of scope.now) self.old) (spelled (context_of scope.now) due) ≡ None) }
        ensures outer { below_of self.new ≡ below_of self.old }
        ensures height { self.new.height ≡ self.old.height }
    {
        match self.walk(scope, self.place(scope), due) {
            Walk::Left(rest) => {
                self.keep(scope, rest);
                true
            }
            Walk::Short => {
                self.clear(scope);
                dead
            }
            Walk::Differs => false,
        }
    }

    /// Takes off a number and, below it, an operand of each type.
    pub fn take_indexed(&mut self, scope: &Scope<'_>, dead: bool, due: Source) -> bool
        ensures yes { OnTrue result (pops dead (level_of (context_of scope.now) self.old) (Operand.Known CoreType.I32 ∷ spelled (context_of scope.now) due) ≡ Some (level_of (context_of scope.now) self.new)) }
        ensures no { OnFalse result (pops dead (level_of (context_of scope.now) self.old) (Operand.Known CoreType.I32 ∷ spelled (context_of scope.now) due) ≡ None) }
        ensures outer { below_of self.new ≡ below_of self.old }
        ensures height { self.new.height ≡ self.old.height }
    {
        if !self.take(scope, dead, Operand::Known(CoreType::I32)) {
            return false;
        }
        self.take_all(scope, dead, due)
    }

    /// Takes off an operand of each of the first types, and puts on one of each of the others.
    pub fn exchange(
        &mut self,
        scope: &Scope<'_>,
        dead: bool,
        takes: Source,
        leaves: Source,
    ) -> Result<bool, NoMemory>
        ensures level { IfOk result (λ done. put (spelled (context_of scope.now) leaves) (pops dead (level_of (context_of scope.now) self.old) (spelled (context_of scope.now) takes)) ≡ (if done then Some (level_of (context_of scope.now) self.new) else None)) }
        ensures outer { OnOk result (below_of self.new ≡ below_of self.old) }
        ensures height { OnOk result (self.new.height ≡ self.old.height) }
    {
        if self.take_all(scope, dead, takes) {
            self.push_all(scope, leaves)?;
            Ok(true)
        } else {
            Ok(false)
        }
    }

    /// Takes off up to three operands.
    pub fn take_few(&mut self, scope: &Scope<'_>, dead: bool, takes: Takes) -> bool
        ensures yes { OnTrue result (pops dead (level_of (context_of scope.now) self.old) (operands (taken takes)) ≡ Some (level_of (context_of scope.now) self.new)) }
        ensures no { OnFalse result (pops dead (level_of (context_of scope.now) self.old) (operands (taken takes)) ≡ None) }
        ensures outer { below_of self.new ≡ below_of self.old }
        ensures height { self.new.height ≡ self.old.height }
    {
        match takes {
            Takes::Nothing => true,
            Takes::One(a) => self.take(scope, dead, Operand::Known(a)),
            Takes::Two(a, b) => self.take_two(scope, dead, a, b),
            Takes::Three(a, b, c) => self.take_three(scope, dead, a, b, c),
        }
    }

    fn take_two(&mut self, scope: &Scope<'_>, dead: bool, a: CoreType, b: CoreType) -> bool
        ensures yes { OnTrue result (pops dead (level_of (context_of scope.now) self.old) (operands (a ∷ b ∷ [])) ≡ Some (level_of (context_of scope.now) self.new)) }
        ensures no { OnFalse result (pops dead (level_of (context_of scope.now) self.old) (operands (a ∷ b ∷ [])) ≡ None) }
        ensures outer { below_of self.new ≡ below_of self.old }
        ensures height { self.new.height ≡ self.old.height }
    {
        if !self.take(scope, dead, Operand::Known(b)) {
            return false;
        }
        if !self.take(scope, dead, Operand::Known(a)) {
            return false;
        }
        true
    }

    fn take_three(
        &mut self,
        scope: &Scope<'_>,
        dead: bool,
        a: CoreType,
        b: CoreType,
        c: CoreType,
    ) -> bool
        ensures yes { OnTrue result (pops dead (level_of (context_of scope.now) self.old) (operands (a ∷ b ∷ c ∷ [])) ≡ Some (level_of (context_of scope.now) self.new)) }
        ensures no { OnFalse result (pops dead (level_of (context_of scope.now) self.old) (operands (a ∷ b ∷ c ∷ [])) ≡ None) }
        ensures outer { below_of self.new ≡ below_of self.old }
        ensures height { self.new.height ≡ self.old.height }
    {
        if !self.take(scope, dead, Operand::Known(c)) {
            return false;
        }
        if !self.take(scope, dead, Operand::Known(b)) {
            return false;
        }
        if !self.take(scope, dead, Operand::Known(a)) {
            return false;
        }
        true
    }

    /// Puts on an operand, if there is one.
    pub fn push_maybe(
        &mut self,
        scope: &Scope<'_>,
        leaves: Option<CoreType>,
    ) -> Result<(), NoMemory>
        ensures level { OnOk result (level_of (context_of scope.now) self.new ≡ operands (option_to_list leaves) ++ level_of (context_of scope.now) self.old) }
        ensures outer { OnOk result (below_of self.new ≡ below_of self.old) }
        ensures height { OnOk result (self.new.height ≡ self.old.height) }
    {
        match leaves {
            Some(t) => self.push(scope, Operand::Known(t)),
            None => Ok(()),
        }
    }

    /// Opens a level above all operands.
    pub fn enter(&mut self, scope: &Scope<'_>)
        ensures level { level_of (context_of scope.now) self.new ≡ [] }
        ensures outer { below_of self.new ≡ self.old.pieces.items }
    {
        let _ = scope;
        self.height = self.pieces.len();
    }

    /// Takes all operands of the level off.
    pub fn clear(&mut self, scope: &Scope<'_>)
        ensures level { level_of (context_of scope.now) self.new ≡ [] }
        ensures outer { below_of self.new ≡ below_of self.old }
        ensures height { self.new.height ≡ self.old.height }
    {
        self.cut(scope, self.height);
    }

    /// Takes off the top operand, of whatever type.
    pub fn discard(&mut self, scope: &Scope<'_>, dead: bool) -> bool
        ensures level { put [] (pops dead (level_of (context_of scope.now) self.old) (top (level_of (context_of scope.now) self.old) ∷ [])) ≡ (if result then Some (level_of (context_of scope.now) self.new) else None) }
        ensures outer { below_of self.new ≡ below_of self.old }
        ensures height { self.new.height ≡ self.old.height }
    {
        match self.peel(scope) {
            Some(_) => true,
            None => dead,
        }
    }

    /// Takes the results off a level, which has to hold nothing else.
    pub fn finish(&mut self, scope: &Scope<'_>, dead: bool, results: Source) -> bool
        ensures done { result ≡ none_left (pops dead (level_of (context_of scope.now) self.old) (spelled (context_of scope.now) results)) }
        ensures level { OnTrue result (level_of (context_of scope.now) self.new ≡ []) }
        ensures outer { below_of self.new ≡ below_of self.old }
        ensures height { self.new.height ≡ self.old.height }
    {
        if !self.take_all(scope, dead, results) {
            return false;
        }
        match self.peel(scope) {
            Some(_) => false,
            None => true,
        }
    }

    /// Closes a level; the one around it begins at the height.
    pub fn leave(&mut self, scope: &Scope<'_>, height: usize)
        ensures level { level_of (context_of scope.now) self.new ≡ pieces_of (context_of scope.now) (reverse (drop height (below_of self.old))) }
        ensures outer { below_of self.new ≡ take height (below_of self.old) }
    {
        let _ = scope;
        self.pieces.truncate(self.height);
        self.height = usize::min(height, self.pieces.len());
    }

    /// Whether the operands below the top one, as many as the first types, fit the others.
    pub fn fits(&self, scope: &Scope<'_>, first: Source, label: Source) -> bool
        ensures { result ≡ all_below (like (spelled (context_of scope.now) first) (under (level_of (context_of scope.now) self.now))) (spelled (context_of scope.now) label) }
    {
        let some = scope.listed(first);
        let due = scope.listed(label);
        if some.len() != due.len() {
            return false;
        }
        match self.first(scope, self.place(scope)) {
            Some(top) => self.meets(scope, top.rest, label),
            None => true,
        }
    }

    /// Whether the operands from a place down meet the types, as far as there are any.
    fn meets(&self, scope: &Scope<'_>, from: Rest, due: Source) -> bool
        requires { Lies (context_of scope.now) self.now from }
        ensures { result ≡ is_some (pops true (rest_of (context_of scope.now) self.now from) (spelled (context_of scope.now) due)) }
    {
        match self.walk(scope, from, due) {
            Walk::Differs => false,
            Walk::Short => true,
            Walk::Left(_) => true,
        }
    }

    /// The topmost operand from a place down, or any where there is none.
    fn look(&self, scope: &Scope<'_>, from: Rest) -> Operand
        requires { Lies (context_of scope.now) self.now from }
        ensures { result ≡ top (rest_of (context_of scope.now) self.now from) }
    {
        match self.first(scope, from) {
            Some(top) => top.operand,
            None => Operand::Any,
        }
    }

    pub fn top(&self, scope: &Scope<'_>) -> Operand
        ensures { result ≡ top (level_of (context_of scope.now) self.now) }
    {
        self.look(scope, self.place(scope))
    }

    /// The operand below the topmost one from a place down.
    fn look_under(&self, scope: &Scope<'_>, from: Rest) -> Operand
        requires { Lies (context_of scope.now) self.now from }
        ensures { result ≡ second (rest_of (context_of scope.now) self.now from) }
    {
        match self.first(scope, from) {
            Some(top) => self.look(scope, top.rest),
            None => Operand::Any,
        }
    }

    pub fn second(&self, scope: &Scope<'_>) -> Operand
        ensures { result ≡ second (level_of (context_of scope.now) self.now) }
    {
        self.look_under(scope, self.place(scope))
    }

    pub fn third(&self, scope: &Scope<'_>) -> Operand
        ensures { result ≡ third (level_of (context_of scope.now) self.now) }
    {
        match self.first(scope, self.place(scope)) {
            Some(top) => self.look_under(scope, top.rest),
            None => Operand::Any,
        }
    }

    /// Takes a condition and two operands off, and puts one on.
    pub fn choose(
        &mut self,
        scope: &Scope<'_>,
        dead: bool,
        operand: Operand,
    ) -> Result<bool, NoMemory>
        ensures level { IfOk result (λ done. put (operand ∷ []) (pops dead (level_of (context_of scope.now) self.old) (Operand.Known CoreType.I32 ∷ operand ∷ operand ∷ [])) ≡ (if done then Some (level_of (context_of scope.now) self.new) else None)) }
        ensures outer { OnOk result (below_of self.new ≡ below_of self.old) }
        ensures height { OnOk result (self.new.height ≡ self.old.height) }
    {
        if !self.take(scope, dead, Operand::Known(CoreType::I32)) {
            return Ok(false);
        }
        if !self.take(scope, dead, operand) {
            return Ok(false);
        }
        if !self.take(scope, dead, operand) {
            return Ok(false);
        }
        self.push(scope, operand)?;
        Ok(true)
    }
}
