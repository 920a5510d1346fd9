//! Scopes that run: their commands, and where a GOTO lands among them.
ghost use Rattle.std.specs.Prelude.{◌≡◌, ℕ, ◌+◌, List, IfOk, OnOk};
ghost use Rattle.std.specs.Option.{option_map};
ghost use Rattle.std.specs.Str.{bytes_eq};
ghost use Rattle.bk_tree.specs.Tree.{command_in, commands_in};
ghost use Rattle.bk_meaning.specs.Environment.{labelled, objects_of_command};
ghost use Rattle.bk_lasting.specs.Views.{env_in};
ghost use Rattle.bk_check.specs.Places.{place_in, place_at, place_from, entered, stands_in, stands_in_one};

use crate::frame::Sought;
use crate::seeking::has_place;
use bk_lasting::{Env, count_command, labelled};
use bk_tree::Command;
use std::alloc::{AllocError, Global};
use std::collections::BTreeMap;
use std::marker::Model;

/// Where a label is: the commands from the one that has it on, and how many lasting objects those before it have.
#[derive(Clone, Copy)]
pub struct Place<'a> {
    pub commands: &'a [Command],
    pub objects: u64,
}

/// What a scope keeps for the landings in it.
#[derive(Drop)]
struct Labels<'a> {
    /// Where its labels are.
    places: BTreeMap<&'a [u8], Place<'a>>,
    /// What names mean in it.
    inside: Env<'a>,
}

/// A scope that runs, which contracts see as its commands and what names mean around it.
#[derive(Drop)]
pub struct Scope<'a> {
    commands: &'a [Command],
    env: Env<'a>,
    /// Its labels, once it keeps them.
    labels: Option<Box<Labels<'a>>>,
}

impl<'a> Model for Scope<'a> {
    ghost use Rattle.std.specs.Coded.{codes};
    ghost use Rattle.bk_tree.specs.contracts.tree.Command as command;
    ghost use Rattle.bk_check.specs.Scoped.{Scoped};

    ghost Value = { Scoped };

    ghost coded = { Prim.hlevel (codes, command.the_row.coded) };

    ghost use Rattle.bk_check.specs.ScopeView.{scope_in, IsScope};

    ghost view = { scope_in };

    ghost invariant = { IsScope };
}

/// How many lasting objects there are with those of a command.
fn with_objects(objects: u64, command: &Command) -> Result<u64, AllocError>
    ensures { IfOk result (λ n. n ≡ objects + objects_of_command (command_in command.now)) }
{
    objects
        .checked_add(count_command(command)?)
        .ok_or(AllocError)
}

/// The place of a label among some commands.
fn place_among<'a>(label: &[u8], commands: &'a [Command]) -> Result<Option<Place<'a>>, AllocError>
    ensures { IfOk result (λ place. option_map place_in place ≡ place_from label.now 0 commands.now) }
{
    let nowhere = Env::new(0);
    let mut rest = commands;
    let mut objects = 0;
    'passing: while let Some((first, others)) = rest.split_first() {
        if has_place(Sought::Label(label), &nowhere, first) {
            return Ok(Some(Place {
                commands: rest,
                objects,
            }));
        }
        objects = with_objects(objects, first)?;
        rest = others;
    }
    Ok(None)
}

/// A label has this place, unless it has one.
fn enter_label<'a>(
    places: &mut BTreeMap<&'a [u8], Place<'a>>,
    label: &'a [u8],
    place: Place<'a>,
) -> Result<(), AllocError>
    ensures { OnOk result ((x : List ℕ) → place_at x places.new ≡ entered (bytes_eq x label.now) (place_in place.entry) (place_at x places.old)) }
{
    if let Some(before) = places.insert(label, place)? {
        places.insert(label, before)?;
    }
    Ok(())
}

/// The labels in a command have this place, but for those that have one.
#[cycle(entering)]
fn enter<'a>(
    places: &mut BTreeMap<&'a [u8], Place<'a>>,
    command: &'a Command,
    place: Place<'a>,
) -> Result<(), AllocError>
    ensures { OnOk result ((x : List ℕ) → place_at x places.new ≡ entered (stands_in x (command_in command.now)) (place_in place.entry) (place_at x places.old)) }
{
    match command {
        Command::Label { letters, body, .. } => {
            enter_label(places, letters, place)?;
            enter(places, body, place)
        }
        Command::Case { body, .. }
        | Command::Default { body, .. }
        | Command::If { body, .. }
        | Command::While { body, .. }
        | Command::SwitchOn { body, .. }
        | Command::Repeat { body, .. }
        | Command::RepeatWhile { body, .. } => enter(places, body, place),
        Command::Test { yes, no, .. } => {
            enter(places, yes, place)?;
            enter(places, no, place)
        }
        Command::Block {
            decls,
            commands,
            ..
        } => {
            if decls.is_empty() {
                enter_each(places, commands, place)
            } else {
                Ok(())
            }
        }
        Command::Empty
        | Command::Assign { .. }
        | Command::Call { .. }
        | Command::Goto { .. }
        | Command::For { .. }
        | Command::ResultIs { .. }
        | Command::Simple { .. } => Ok(()),
    }
}

/// The labels in some commands have this place, but for those that have one.
#[cycle(entering)]
fn enter_each<'a>(
    places: &mut BTreeMap<&'a [u8], Place<'a>>,
    commands: &'a [Command],
    place: Place<'a>,
) -> Result<(), AllocError>
    ensures { OnOk result ((x : List ℕ) → place_at x places.new ≡ entered (stands_in_one x (commands_in commands.now)) (place_in place.entry) (place_at x places.old)) }
{
    for command in commands {
        enter(places, command, place)?;
    }
    Ok(())
}

/// The places of the labels of some commands.
fn places_of<'a>(
    alloc: Global,
    commands: &'a [Command],
) -> Result<BTreeMap<&'a [u8], Place<'a>>, AllocError>
    ensures { IfOk result (λ places. (x : List ℕ) → place_at x places ≡ place_from x 0 commands.now) }
{
    let mut places = BTreeMap::new(alloc);
    let mut rest = commands;
    let mut objects = 0;
    'entering: while let Some((first, others)) = rest.split_first() {
        let place = Place {
            commands: rest,
            objects,
        };
        enter(&mut places, first, place)?;
        objects = with_objects(objects, first)?;
        rest = others;
    }
    Ok(places)
}

impl<'a> Labels<'a> {
    /// Where a label is.
    fn find(&self, label: &[u8]) -> Option<Place<'a>>
        ensures { option_map place_in result ≡ place_at label.now self.now.places }
    {
        self.places.get(label).copied()
    }
}

impl<'a> Scope<'a> {
    /// A scope that begins.
    pub fn new(commands: &'a [Command], env: Env<'a>) -> Scope<'a>
        ensures { result ≡ record { commands = commands.now; env = env_in env.entry } }
    {
        Scope {
            commands,
            env,
            labels: None,
        }
    }

    /// What names mean around it.
    pub fn env(&self) -> &Env<'a>
        ensures { env_in result.now ≡ self.now.env }
    {
        &self.env
    }

    /// The same, which keeps its labels from now on.
    pub fn with_labels(self, alloc: Global) -> Result<Scope<'a>, AllocError>
        ensures { IfOk result (λ scope. scope ≡ self.entry) }
    {
        if self.labels.is_some() {
            return Ok(self);
        }
        let places = places_of(alloc, self.commands)?;
        let inside = labelled(alloc, self.commands, self.env.again()?)?;
        let labels = Box::new(alloc, Labels { places, inside })?;
        Ok(Scope {
            commands: self.commands,
            env: self.env,
            labels: Some(labels),
        })
    }

    /// Where a label is, if it is one of the scope.
    pub fn place(&self, label: &[u8]) -> Result<Option<Place<'a>>, AllocError>
        ensures { IfOk result (λ place. option_map place_in place ≡ place_from label.now 0 self.now.commands) }
    {
        match &self.labels {
            Some(labels) => Ok(labels.find(label)),
            None => place_among(label, self.commands),
        }
    }

    /// What names mean in it.
    pub fn inside(&self, alloc: Global) -> Result<Env<'a>, AllocError>
        ensures { IfOk result (λ inside. env_in inside ≡ labelled (commands_in self.now.commands) self.now.env) }
    {
        match &self.labels {
            Some(labels) => labels.inside.again(),
            None => labelled(alloc, self.commands, self.env.again()?),
        }
    }
}
