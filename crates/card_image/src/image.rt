//! A card's image.
ghost use Rattle.std.specs.Prelude.{◌≡◌, ◌<◌, ◌∷◌, [], ◌++◌, length, position, Some, None, if◌then◌else◌, IfOk};
ghost use Rattle.std.specs.Option.{option_copied};
ghost use Rattle.ep_base.specs.Cards.Apdu.{same_bytes, command_data};
ghost use Rattle.ep_base.specs.Cards.CardAnswer.{IsImage, IsAnswer, new_image, plain, deselected, is_select, ppse_answer, select_answer, other_answer, card_answer};

use crate::answers::Answers;
use crate::apps::{App, CountedApp, counted_apps};
use crate::log::{CardLog, Record};
use apdu::{Command, PPSE_NAME, Response, SUCCESS};
use ep_base::NoMemory;
use std::alloc::Global;
use std::marker::Model;

const FILE_NOT_FOUND: [u8; 2] = [0x6a, 0x82];

pub(crate) const UNKNOWN_INSTRUCTION: [u8; 2] = [0x6d, 0x00];

const NOT_ALLOWED_NOW: [u8; 2] = [0x69, 0x85];

/// What a card answers to a command.
#[derive(Drop)]
pub struct Answered {
    /// The response.
    pub response: Response,
    /// How many S(WTX) come before it, at most 8.
    pub wtx: u8,
    /// The WTXM of these, 1 to 59.
    pub wtxm: u8,
}

impl Model for Answered {
    ghost use Rattle.std.specs.Prelude.{◌≤◌};
    ghost use Rattle.ep_base.specs.Cards.CardAnswer.{Answered};

    ghost Value = { Answered };

    ghost view = { λ a. record { response = a.response; wtx = a.wtx; wtxm = a.wtxm } };

    ghost invariant = { λ a. (a.wtx ≤ 8) × (1 ≤ a.wtxm) × (a.wtxm ≤ 59) };
}

// A status word alone, without S(WTX).
pub(crate) fn plain(word: &[u8; 2]) -> Answered
    ensures { result ≡ plain word.now }
{
    Answered {
        response: Response::of(word).unwrap(),
        wtx: 0,
        wtxm: 1,
    }
}

/// A card's image: responses to SELECT PPSE, to the SELECT of each application and to other commands, each list with
/// a count of what was given of it, and the selected application.
#[derive(Drop)]
pub struct CardImage {
    number: u8,
    ppse: Answers,
    apps: Vec<CountedApp>,
    selected: Option<usize>,
}

impl Model for CardImage {
    ghost use Rattle.ep_base.specs.Cards.CardAnswer.{Image, IsImage};

    ghost Value = { Image };

    ghost view = { λ i. record { number = i.number; ppse = i.ppse; apps = i.apps.items; selected = i.selected } };

    ghost invariant = { λ i. IsImage (record { number = i.number; ppse = i.ppse; apps = i.apps.items; selected = i.selected }) };
}

impl CardImage {
    /// The image of the card with this number, with at most 16 responses to SELECT PPSE and at most 16 applications.
    /// Nothing was given yet, and no application is selected.
    ///
    /// Errors: `NoMemory`.
    pub fn open(
        alloc: Global,
        number: u8,
        ppse: Vec<Response>,
        apps: Vec<App>,
    ) -> Result<CardImage, NoMemory>
        requires { IsImage (new_image number ppse.items apps.items) }
        ensures { IfOk result (λ i. i ≡ new_image number ppse.items apps.items) }
    {
        let apps = counted_apps(alloc, apps)?;
        Ok(CardImage {
            number,
            ppse: Answers::of(ppse),
            apps,
            selected: None,
        })
    }

    /// The card's number.
    pub fn number(&self) -> u8
        ensures value { result ≡ self.now.number }
        ensures limits { IsImage self.now }
    {
        self.number
    }

    /// Answers a command, and appends it to the log.
    pub fn answer(&mut self, command: &Command, log: &mut CardLog) -> Answered
        requires { length log.old.0 < log.old.1 }
        ensures answer { result ≡ (card_answer self.old command.now).0 }
        ensures after { self.new ≡ (card_answer self.old command.now).1 }
        ensures logged { log.new ≡ (log.old.0 ++ (self.old.number, command.now) ∷ [], log.old.1) }
        ensures limits { IsAnswer result }
    {
        log.add(Record {
            card: self.number,
            command: command.copy(),
        });
        self.reply(command)
    }

    /// Selects no application.
    pub fn reset_selection(&mut self)
        ensures { self.new ≡ deselected self.old }
    {
        self.selected = None;
    }

    #[tactic(auto, unfolding(ep_base::specs::Cards::CardAnswer::card_answer))]
    fn reply(&mut self, command: &Command) -> Answered
        ensures { (result, self.new) ≡ card_answer self.old command.now }
    {
        match selected_name(command) {
            None => self.execute(command.bytes()),
            Some(name) => {
                if name == PPSE_NAME.as_slice() {
                    self.select_ppse()
                } else {
                    self.select_app(name)
                }
            }
        }
    }

    fn select_ppse(&mut self) -> Answered
        ensures { (result, self.new) ≡ ppse_answer self.old }
    {
        self.selected = None;
        if self.ppse.is_empty() {
            return plain(&FILE_NOT_FOUND);
        }
        Answered {
            response: self.ppse.next(),
            wtx: 0,
            wtxm: 1,
        }
    }

    fn select_app(&mut self, name: &[u8]) -> Answered
        ensures { (result, self.new) ≡ select_answer self.old name.now }
    {
        match place_of_app(&self.apps, name) {
            None => {
                self.selected = None;
                plain(&FILE_NOT_FOUND)
            }
            Some(place) => {
                let answered = self.apps[place].select();
                self.selected = (answered.response.sw() == SUCCESS).then_some(place);
                answered
            }
        }
    }

    fn execute(&mut self, command: &[u8]) -> Answered
        ensures { (result, self.new) ≡ other_answer self.old command.now self.old.selected }
    {
        match self.selected {
            None => plain(&NOT_ALLOWED_NOW),
            Some(place) => self.apps[place].execute(command),
        }
    }
}

// The place of the first application with this name.
fn place_of_app(apps: &[CountedApp], name: &[u8]) -> Option<usize>
    ensures { result ≡ position (λ a. same_bytes a.name name.now) apps.now }
{
    apps.iter().position(|app| app.name() == name)
}

// The name in a SELECT by name with data.
#[tactic(auto, unfolding(ep_base::specs::Cards::Apdu::is_command, ep_base::specs::Cards::Apdu::command_data))]
fn selected_name(command: &Command) -> Option<&[u8]>
    ensures { option_copied result ≡ (if is_select command.now then Some (command_data command.now) else None) }
{
    let bytes = command.bytes();
    if !bytes.starts_with(&[0x00, 0xa4, 0x04, 0x00]) || bytes.len() <= 5 {
        return None;
    }
    let (_, data) = bytes.split_at(5);
    let (name, _) = data.split_at(usize::from(bytes[4]));
    Some(name)
}
