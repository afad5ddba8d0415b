//! How each layout that the database of a queue may have comes to that of a store, step by step.
//!
//! A further version is a step of `UPGRADES`, and the layouts that it brings are lines of `KNOWN`.

ghost use Rattle.std.specs.Prelude.{◌≡◌, MatchOption, map, IfOk};
ghost use Rattle.std.specs.List.{AllByRecursion};
ghost use Rattle.sqlite_rules.specs.Lists.{Has};
ghost use Rattle.fax_schema.specs.Schema.{AreOurs, our_layouts};
ghost use Rattle.fax_schema.specs.Way.{HasWay, IsWay, layout_of, texts_of};

use crate::shape::{
    BARE, BARE_CALLS, CORE, FIRST_BARE, FIRST_BARE_CALLS, FIRST_CORE, FIRST_OLDER,
    FIRST_OLDER_CORE, FIRST_OLDER_VACUUMED, FIRST_TABLES, FIRST_VACUUMED, OURS, SECOND_BARE,
    SECOND_BARE_CALLS, SECOND_CORE, SECOND_TABLES, SECOND_VACUUMED, VACUUMED,
};
use crate::statements::{
    CREATE_CHOICE_INDEX, CREATE_DOWN, CREATE_FLOORS, CREATE_GRANTS, CREATE_GRANTS_INDEX,
    CREATE_HOLDS, CREATE_JOBS, CREATE_KILLTIME_INDEX, CREATE_META, CREATE_REPLIES, CREATE_TIMES,
    DROP_CALLS, DROP_CHOICE_INDEX, DROP_GRANTS_INDEX, DROP_KILLTIME_INDEX,
};
use fax_layout::{Layout, has_layout};
use sqlite_schema::schema::Schema;
use std::alloc::{AllocError, Global};

/// A step by which a database comes nearer to the tables and indexes of a store.
#[derive(Clone, Copy)]
pub enum Step {
    /// Takes the indexes of jobs and grants away, where they are the last.
    DropIndexes,
    /// Takes the indexes of jobs away, where they are the last.
    DropJobIndexes,
    /// Takes `calls` away.
    DropCalls,
    /// Makes the tables of the first version, where there are none.
    CreateFirst,
    /// Makes what the second version has beside the first.
    CreateSecond,
    /// Makes what the third version has beside those.
    CreateThird,
    /// Makes the indexes of jobs and grants.
    CreateIndexes,
}

impl Step {
    /// The texts in SQL of this step, in their order.
    pub fn texts(self) -> &'static [&'static str]
        ensures { map (λ text. text.now) result.now ≡ texts_of self }
    {
        match self {
            Step::DropIndexes => &[DROP_GRANTS_INDEX, DROP_CHOICE_INDEX, DROP_KILLTIME_INDEX],
            Step::DropJobIndexes => &[DROP_CHOICE_INDEX, DROP_KILLTIME_INDEX],
            Step::DropCalls => &[DROP_CALLS],
            Step::CreateFirst => &[
                CREATE_JOBS,
                CREATE_GRANTS,
                CREATE_HOLDS,
                CREATE_DOWN,
                CREATE_REPLIES,
                CREATE_META,
            ],
            Step::CreateSecond => &[CREATE_FLOORS],
            Step::CreateThird => &[CREATE_TIMES],
            Step::CreateIndexes => {
                &[
                    CREATE_KILLTIME_INDEX,
                    CREATE_CHOICE_INDEX,
                    CREATE_GRANTS_INDEX,
                ]
            }
        }
    }
}

/// The steps that lead from no tables through each version to the next, and to the indexes.
pub static UPGRADES: [Step; 4] = [
    Step::CreateFirst,
    Step::CreateSecond,
    Step::CreateThird,
    Step::CreateIndexes,
];

/// What a database goes through until it has all that a store has but `calls`.
#[derive(Clone, Copy)]
pub struct Way {
    /// It loses first what stands in the way.
    pub loses: &'static [Step],
    /// Then it gets what it lacks.
    pub gains: &'static [Step],
}

/// A layout, the steps by which it loses what stands in the way, and how many of `UPGRADES` it needs no more then.
struct Known(Layout, &'static [Step], usize);

const KNOWN: &[Known] = &[
    // the third version
    Known(OURS, &[Step::DropCalls], 4),
    Known(CORE, &[], 4),
    Known(BARE, &[], 3),
    Known(BARE_CALLS, &[Step::DropCalls], 3),
    Known(VACUUMED, &[Step::DropIndexes, Step::DropCalls], 3),
    // the second version
    Known(SECOND_TABLES, &[Step::DropCalls, Step::DropJobIndexes], 2),
    Known(SECOND_CORE, &[Step::DropJobIndexes], 2),
    Known(SECOND_BARE, &[], 2),
    Known(SECOND_BARE_CALLS, &[Step::DropCalls], 2),
    Known(SECOND_VACUUMED, &[Step::DropJobIndexes, Step::DropCalls], 2),
    // the first version
    Known(FIRST_TABLES, &[Step::DropCalls, Step::DropJobIndexes], 1),
    Known(FIRST_OLDER, &[Step::DropCalls, Step::DropJobIndexes], 1),
    Known(FIRST_CORE, &[Step::DropJobIndexes], 1),
    Known(FIRST_OLDER_CORE, &[Step::DropJobIndexes], 1),
    Known(FIRST_BARE, &[], 1),
    Known(FIRST_BARE_CALLS, &[Step::DropCalls], 1),
    Known(FIRST_VACUUMED, &[Step::DropJobIndexes, Step::DropCalls], 1),
    Known(
        FIRST_OLDER_VACUUMED,
        &[Step::DropJobIndexes, Step::DropCalls],
        1,
    ),
];

/// The layouts of a queue's database.
fn known_ways() -> &'static [Known]
    ensures layouts { map (λ k. layout_of k) result.now ≡ our_layouts }
    ensures ways { AllByRecursion HasWay result.now }
{
    KNOWN
}

/// The first of these whose layout a database has.
fn known_as(
    alloc: Global,
    schema: &Schema,
    mut known: &'static [Known],
) -> Result<Option<&'static Known>, AllocError>
    ensures { IfOk result (λ found. MatchOption found (¬ Has (map (λ k. layout_of k) known.entry.now) schema.now)
        (λ k. Has known.entry.now k.now × (schema.now ≡ layout_of k.now))) }
{
    while let [one, rest @ ..] = known {
        if has_layout(alloc, schema, one.0)? {
            return Ok(Some(one));
        }
        known = rest;
    }
    Ok(None)
}

/// The way that a database with the tables of a queue goes, whatever its layout is. Another has none.
pub fn way_of(alloc: Global, schema: &Schema) -> Result<Option<Way>, AllocError>
    ensures { IfOk result (λ way. MatchOption way (¬ AreOurs schema.now) (λ w. AreOurs schema.now × IsWay w schema.now)) }
{
    let Some(known) = known_as(alloc, schema, known_ways())? else {
        return Ok(None);
    };
    Ok(Some(Way {
        loses: known.1,
        gains: &UPGRADES[known.2..],
    }))
}
