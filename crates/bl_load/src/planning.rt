// The plan of a load.
ghost use Rattle.std.specs.Prelude.{◌≡◌, ◌≤◌, ◌<◌, ◌^◌, ◌↔◌, [], ◌∷◌, true, false, length, Some, None, IsSome, IfOk, IfSome, IfNone};
ghost use Rattle.std.specs.List.{All, AllZip};
ghost use Rattle.std.specs.Str.{IsUtf8};
ghost use Rattle.std.specs.FinMap.{get};
ghost use Rattle.bl_outside.specs.Counts.{Rose};
ghost use Rattle.bl_outside.specs.Folders.{AreNames, Files};
ghost use Rattle.bl_outside.specs.Texts.{IsShortText};
ghost use Rattle.bl_files.specs.Carried.{AreFeeds};
ghost use Rattle.bl_files.specs.declared.plan_result.PlanResult.TheVariants as plan;
ghost use Rattle.bl_load.specs.Finding.{
  AddsFound,
  AddsFoundAt,
  AreAllThere,
  AreEnded,
  AreListed,
  AreNamesAt,
  AreRising,
  IsFoundAt,
  MayBePlanned,
};
ghost use Rattle.bl_load.specs.Planning.{IsPlanAt, IsPlanOfNames, MayBePlan, is_no_previous};
ghost use Rattle.bl_load.specs.Prepares.{IsPlanFor};

use crate::finding::{Finding, find};
use bl_files::{Feed, Found, MOST_FILES, PlanResult, path_of};
use bl_outside::{Folder, List, Listing, NoMemory, Outside, Text};
use std::alloc::Global;

// Adds what is found of the file of this name. False where the folder failed.
fn add_found<F: Folder>(
    alloc: Global,
    folder: &mut F,
    source: &Text,
    name: &Text,
    previous: &List<Feed>,
    found: &mut List<Found>,
) -> Result<bool, NoMemory>
    requires source { IsUtf8 source.now }
    requires name { IsShortText name.now }
    requires previous { AreEnded previous.now }
    ensures adds { IfOk result (AddsFound name.now found.old found.new) }
    ensures told { (files : Files) → F.files folder.old ≡ Some files
        → IfOk result (AddsFoundAt files source.now previous.now name.now found.old found.new) }
    ensures files { F.files folder.new ≡ F.files folder.old }
    ensures later { F.faults folder.old ≤ F.faults folder.new }
    ensures fault { IfOk result (λ done. done ≡ false
        → Rose (F.faults folder.old) (F.faults folder.new)) }
{
    match find(alloc, folder, source, name, previous)? {
        Finding::Found(file) => found.push(file)?,
        Finding::Gone => return Ok(true),
        Finding::Fault => return Ok(false),
    }
    Ok(true)
}

// What is found of the files of these names. None where the folder failed.
fn find_all<F: Folder>(
    alloc: Global,
    folder: &mut F,
    source: &Text,
    names: &[Text],
    previous: &List<Feed>,
) -> Result<Option<List<Found>>, NoMemory>
    requires source { IsUtf8 source.now }
    requires names { All IsShortText names.now }
    requires rising { AreRising names.now }
    requires previous { AreEnded previous.now }
    ensures planned { IfOk result (λ found. IfSome found (MayBePlanned names.now)) }
    ensures told { (files : Files) → F.files folder.old ≡ Some files
        → AreAllThere files source.now names.now
        → IfOk result (λ found. IfSome found
        (AllZip (IsFoundAt files source.now previous.now) names.now)) }
    ensures files { F.files folder.new ≡ F.files folder.old }
    ensures later { F.faults folder.old ≤ F.faults folder.new }
    ensures fault { IfOk result (λ found. IfNone found
        (Rose (F.faults folder.old) (F.faults folder.new))) }
{
    let mut found = List::new(alloc);
    for name in names {
        if !add_found(alloc, folder, source, name, previous, &mut found)? {
            return Ok(None);
        }
    }
    Ok(Some(found))
}

// The plan of the files of these names, in any order.
fn plan_names<F: Folder>(
    alloc: Global,
    folder: &mut F,
    source: &Text,
    names: List<Text>,
    previous: &List<Feed>,
) -> Result<PlanResult, NoMemory>
    requires source { IsUtf8 source.now }
    requires names { AreListed names }
    requires previous { AreEnded previous.now }
    ensures may { IfOk result MayBePlan }
    ensures some { IfOk result (λ planned. is_no_previous planned ≡ false) }
    ensures told { (files : Files) → F.files folder.old ≡ Some files
        → AreNamesAt files source.now names
        → IfOk result (IsPlanOfNames files source.now previous.now) }
    ensures files { F.files folder.new ≡ F.files folder.old }
    ensures later { F.faults folder.old ≤ F.faults folder.new }
    ensures fault { IfOk result (λ planned. planned ≡ plan.ListFault
        → Rose (F.faults folder.old) (F.faults folder.new)) }
{
    let number = names.len() as u64;
    if number > MOST_FILES {
        return Ok(PlanResult::TooManyFiles(number));
    }
    let mut names = names.into_vec();
    names.sort()?;
    match find_all(alloc, folder, source, names.as_slice(), previous)? {
        Some(found) => Ok(PlanResult::Feeds(found)),
        None => Ok(PlanResult::ListFault),
    }
}

// The list of the empty name alone.
fn no_name(alloc: Global) -> Result<List<Text>, NoMemory>
    ensures { IfOk result (λ names. names ≡ [] ∷ []) }
{
    let mut names = List::new(alloc);
    names.push(Text::new(alloc))?;
    Ok(names)
}

// The plan of what lies at the path of a source.
fn plan_at<F: Folder>(
    alloc: Global,
    folder: &mut F,
    path: &Text,
    previous: &List<Feed>,
) -> Result<PlanResult, NoMemory>
    requires path { IsUtf8 path.now }
    requires previous { AreEnded previous.now }
    ensures may { IfOk result MayBePlan }
    ensures some { IfOk result (λ planned. is_no_previous planned ≡ false) }
    ensures told { (files : Files) → F.files folder.old ≡ Some files
        → IfOk result (IsPlanAt files path.now previous.now) }
    ensures files { F.files folder.new ≡ F.files folder.old }
    ensures later { F.faults folder.old ≤ F.faults folder.new }
    ensures fault { IfOk result (λ planned. planned ≡ plan.ListFault
        → Rose (F.faults folder.old) (F.faults folder.new)) }
{
    match folder.list(path) {
        Ok(Listing::Missing) => Ok(PlanResult::SourceNotFound),
        Ok(Listing::OneFile) => plan_names(alloc, folder, path, no_name(alloc)?, previous),
        Ok(Listing::Names(names)) => plan_names(alloc, folder, path, names, previous),
        Err(Outside::Failed) => Ok(PlanResult::ListFault),
        Err(Outside::NoMemory) => Err(NoMemory),
    }
}

/// The plan of a load of the source that goes on with these feeds, or with none where that is
/// wrong.
pub fn plan<F: Folder>(
    alloc: Global,
    folder: &mut F,
    source: &Text,
    no_previous: bool,
    previous: &List<Feed>,
) -> Result<PlanResult, NoMemory>
    requires { AreEnded previous.now }
    ensures may { IfOk result MayBePlan }
    ensures none { IfOk result (λ planned. (planned ≡ plan.NoPrevious) ↔ (no_previous ≡ true)) }
    ensures told { (files : Files) → F.files folder.old ≡ Some files
        → IfOk result (IsPlanFor files source.now no_previous previous.now) }
    ensures files { F.files folder.new ≡ F.files folder.old }
    ensures later { F.faults folder.old ≤ F.faults folder.new }
    ensures fault { IfOk result (λ planned. planned ≡ plan.ListFault
        → Rose (F.faults folder.old) (F.faults folder.new)) }
{
    if no_previous {
        return Ok(PlanResult::NoPrevious);
    }
    match path_of(alloc, source.as_slice())? {
        Some(path) => plan_at(alloc, folder, &path, previous),
        None => Ok(PlanResult::SourceNotFound),
    }
}
