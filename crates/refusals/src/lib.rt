// The refusals that calls share, in the order of their numbers' table: 12, 1, 6, then the key's page or 2, then 7.
#![tactic(auto)]

ghost use Rattle.std.specs.Prelude.{◌≡◌, length};
ghost use Rattle.limits.specs.Limits.{max_pages};
ghost use Rattle.desk.specs.Places.{page_found, find_by, state_for};
ghost use Rattle.desk.specs.Lawful.{lawful_key, lawful};
ghost use Rattle.parts.specs.declared.Sought.TheVariants.{Used};
ghost use Rattle.parts.specs.Finding.{page_sought};
ghost use Rattle.parts.specs.Parts.{desk_of, Whole};
ghost use Rattle.refusals.specs.Stands.{early, standing, standing_to, stands_below};

use desk::{Direction, Key, Refusal};
use parts::{PageLine, Parts, Sought};

// The tests that come first, 12, 1 and 6, where it is known whether the desk is lawful.
pub fn early(good: bool, key: Key, sized: bool) -> Result<(), Refusal>
    ensures { result ≡ early good (lawful_key key) sized }
{
    if !good {
        return Err(Refusal::UnlawfulDesk);
    }
    if !lawful::lawful_key(key) {
        return Err(Refusal::KeyOutOfRange);
    }
    if !sized {
        return Err(Refusal::WrongSize);
    }
    Ok(())
}

// The same, of a desk.
pub fn early_refusal(desk: &Parts, key: Key, sized: bool) -> Result<(), Refusal>
    ensures { (result ≡ early (lawful (desk_of desk.now)) (lawful_key key) sized) × Whole desk.now }
{
    early(lawful::lawful_desk(desk), key, sized)
}

// 12, 1 and 6, then the key's page among the lines or 2.
pub fn standing(good: bool, key: Key, sized: bool, pages: &[PageLine]) -> Result<usize, Refusal>
    ensures { (result ≡ standing good (lawful_key key) sized (find_by (page_sought (Used key)) pages.now 0))
        × stands_below (length pages.now) result }
{
    early(good, key, sized)?;
    let Some(i) = parts::find(pages, 0, Sought::Used(key)) else {
        return Err(Refusal::NoPage);
    };
    Ok(i)
}

// The same, of a desk.
pub fn page_for(desk: &Parts, key: Key, sized: bool) -> Result<usize, Refusal>
    ensures { (result ≡ standing (lawful (desk_of desk.now)) (lawful_key key) sized (page_found (desk_of desk.now) key))
        × stands_below max_pages result × Whole desk.now }
{
    standing(lawful::lawful_desk(desk), key, sized, &desk.book.pages)
}

// 12, 1, 6 and 2, then 7.
pub fn standing_to(
    good: bool,
    key: Key,
    sized: bool,
    pages: &[PageLine],
    direction: Direction,
) -> Result<usize, Refusal>
    ensures { (result ≡ standing_to pages.now (state_for direction)
        (standing good (lawful_key key) sized (find_by (page_sought (Used key)) pages.now 0)))
        × stands_below (length pages.now) result }
{
    let i = standing(good, key, sized, pages)?;
    if pages[i].state != u64::from(direction) {
        return Err(Refusal::OtherDirection);
    }
    Ok(i)
}

// The same, of a desk.
pub fn page_to(desk: &Parts, key: Key, sized: bool, direction: Direction) -> Result<usize, Refusal>
    ensures { (result ≡ standing_to desk.now.book.pages (state_for direction)
        (standing (lawful (desk_of desk.now)) (lawful_key key) sized (page_found (desk_of desk.now) key)))
        × stands_below max_pages result × Whole desk.now }
{
    let pages = &desk.book.pages;
    standing_to(lawful::lawful_desk(desk), key, sized, pages, direction)
}
