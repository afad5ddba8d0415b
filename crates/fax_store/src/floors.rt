//! The floors: through which number each client has given up its replies.

ghost use Rattle.std.specs.Prelude.{◌≡◌, ◌≤◌, ◌<◌, ◌^◌, ℕ, [], ◌∷◌, false, IfErr, IfOk, IfSome, Some};
ghost use Rattle.fax_core.specs.Ledger.{floors_with, given_up, with_floor, without_replies};
ghost use Rattle.fax_value.specs.Name.{IsName};
ghost use Rattle.fax_store.specs.Calls.{Answers, AnswersRows, Finds, MakesIf, Writes, WritesIf, WritesWhere};
ghost use Rattle.fax_store.specs.Floors.{FloorStands, IsHundredth, TakesFew, TakesHundred, Thins};
ghost use Rattle.fax_tables.specs.Fault.{OrUnavailable};
ghost use Rattle.fax_tables.specs.Row.{number};

use crate::store::Store;
use crate::work::Work;
use fax_job::{RequestNumber, is_name};
use fax_schema::statements::{
    DELETE_FLOOR, DELETE_REPLIES, INSERT_FLOOR, SELECT_FLOOR, SELECT_HUNDREDTH,
};
use fax_tables::{StoreFault, floor_in, floor_value};
use sqlite::{Alter, Row, params};

/// The number in the row, where it is at most this one.
///
/// # Errors
///
/// `Unavailable`.
fn number_through(row: &Row, floor: u64) -> Result<Option<u64>, StoreFault>
    ensures within { IfOk result (λ found. IfSome found (λ number. number ≤ floor)) }
    ensures found { (n : ℕ) → row.now ≡ number n ∷ [] → n ≤ floor → floor < 10 ^ 18
        → OrUnavailable result (λ found. found ≡ Some n) }
    ensures cause { IfErr result (λ fault. fault ≡ StoreFault.Unavailable) }
{
    match floor_in(row) {
        Ok(number) if number <= floor => Ok(Some(number)),
        Err(StoreFault::Unavailable) => Err(StoreFault::Unavailable),
        _ => Ok(None),
    }
}

impl<S: Alter> Store<S> {
    /// Through which number the client has given up its replies: 0, where it has given up none.
    ///
    /// # Errors
    ///
    /// `Unavailable`, or `Strange` where its row is no lawful record.
    pub fn floor(&mut self, client: &str) -> Result<u64, StoreFault>
        ensures leaves { Finds S.Store self.old self.new result }
        ensures answers { Answers S.Store self.old self.new result (λ m k floor. floor ≡ k.floor client.now) }
        // Whatever the rows say, a floor that doesn't read is never 0.
        ensures stands { AnswersRows S.Store self.old self.new result (λ db. FloorStands db client.now) }
        ensures lawful { IfOk result (λ floor. floor < 10 ^ 18) }
    {
        match self.find(SELECT_FLOOR, params![client])? {
            Some(row) => floor_in(&row),
            None => Ok(0),
        }
    }

    /// The number of the hundredth of the client's replies with numbers through this one, where there are so many.
    fn hundredth(&mut self, client: &str, floor: u64) -> Result<Option<u64>, StoreFault>
        requires { floor < 10 ^ 18 }
        ensures leaves { Finds S.Store self.old self.new result }
        ensures within { IfOk result (λ found. IfSome found (λ number. number ≤ floor)) }
        ensures answers { Answers S.Store self.old self.new result (λ m. IsHundredth client.now floor) }
        ensures cause { IfErr result (λ fault. fault ≡ StoreFault.Unavailable) }
    {
        match self.find(SELECT_HUNDREDTH, params![client, floor_value(floor)])? {
            Some(row) => number_through(&row, floor),
            None => Ok(None),
        }
    }

    /// Takes the client's replies with numbers through this one away, all at once. They are a hundred at most.
    fn drop_through(&mut self, client: &str, floor: u64) -> Result<(), StoreFault>
        requires { floor < 10 ^ 18 }
        ensures { TakesFew S.Store client.now floor self.old self.new result }
    {
        self.run(DELETE_REPLIES, params![client, floor_value(floor)])
    }

    /// Takes a hundred of the client's replies with numbers through this one away, and gives whether there were so many.
    fn drop_hundred(&mut self, client: &str, floor: u64) -> Result<bool, StoreFault>
        requires { floor < 10 ^ 18 }
        ensures takes { TakesHundred S.Store client.now floor self.old self.new result }
        ensures cause { IfErr result (λ fault. fault ≡ StoreFault.Unavailable) }
    {
        match self.hundredth(client, floor)? {
            Some(last) => {
                self.drop_through(client, last)?;
                Ok(true)
            }
            None => Ok(false),
        }
    }

    /// Takes the client's replies with numbers through this one away, a hundred at a time and all but the last few.
    fn drop_hundreds(&mut self, client: &str, floor: u64) -> Result<(), StoreFault>
        requires { floor < 10 ^ 18 }
        ensures thins { Thins S.Store client.now floor self.old self.new result }
        ensures cause { IfErr result (λ fault. fault ≡ StoreFault.Unavailable) }
    {
        for _ in 0..u64::MAX {
            if !self.drop_hundred(client, floor)? {
                return Ok(());
            }
        }
        Ok(())
    }

    /// Takes the client's replies with numbers through this one away. The engine has each row that a statement takes away
    /// in memory until it ends, so no statement takes more than a hundred.
    fn drop_replies(&mut self, client: &str, floor: u64) -> Result<(), StoreFault>
        requires { floor < 10 ^ 18 }
        ensures { Writes S.Store self.old self.new result (λ m. m) (without_replies client.now floor) }
    {
        self.drop_hundreds(client, floor)?;
        self.drop_through(client, floor)
    }

    /// Has the client's floor be this one, whatever it was.
    fn write_floor(&mut self, client: &str, floor: u64) -> Result<(), StoreFault>
        requires { (1 ≤ floor) × (floor < 10 ^ 18) }
        ensures { WritesWhere S.Store self.old self.new result (λ m. IsName client.now) (λ m. m)
            (λ k. record k { floor = floors_with client.now floor k.floor }) }
    {
        self.run(DELETE_FLOOR, params![client])?;
        self.run(INSERT_FLOOR, params![client, floor_value(floor)])
    }

    /// Has the client's floor be this one, and takes its replies through it away.
    fn put_floor(&mut self, client: &str, floor: u64) -> Result<(), StoreFault>
        requires { (1 ≤ floor) × (floor < 10 ^ 18) }
        ensures { WritesWhere S.Store self.old self.new result (λ m. IsName client.now) (λ m. m)
            (with_floor client.now floor) }
    {
        self.drop_replies(client, floor)?;
        self.write_floor(client, floor)
    }

    fn raise_floor(&mut self, client: &str, upto: RequestNumber) -> Result<(), StoreFault>
        ensures { WritesIf S.Store self.old self.new result (λ m k. IsName client.now) (λ m. m)
            (given_up client.now upto) }
    {
        if !is_name(client.as_bytes()) {
            return Err(StoreFault::Strange);
        }
        let floor = self.floor(client)?;
        self.put_floor(client, upto.at_least(floor).get())
    }
}

impl<S: Alter> Work<'_, S> {
    /// Raises the client's floor to this number, where it isn't as high, and takes its replies through the floor away.
    ///
    /// # Errors
    ///
    /// `Unavailable`, or `Strange` where the client is no name, or its floor is no lawful record.
    pub fn give_up(&mut self, client: &str, upto: RequestNumber) -> Result<(), StoreFault>
        ensures { MakesIf S.Store self.old self.new result (λ m k. IsName client.now) (λ m. m)
            (given_up client.now upto) }
    {
        if self.failed {
            return Err(StoreFault::Unavailable);
        }
        let done = self.store.raise_floor(client, upto);
        self.failed = done.is_err();
        done
    }
}
