//! Whole folders in memory, loaded by `folder_loader`: tables of folders, with what the rules in words say of each. The crate has
//! tests alone.
#![tactic(auto)]

#[cfg(test)]
mod asking_tests;
#[cfg(test)]
mod cases;
#[cfg(test)]
mod ended_tests;
#[cfg(test)]
mod folders;
#[cfg(test)]
mod import_tests;
#[cfg(test)]
mod loading_tests;
#[cfg(test)]
mod member_tests;
#[cfg(test)]
mod name_tests;
#[cfg(test)]
mod names;
#[cfg(test)]
mod order_tests;
#[cfg(test)]
mod place_tests;
#[cfg(test)]
mod resolver_tests;
#[cfg(test)]
mod sharing_tests;
#[cfg(test)]
mod small_tests;
#[cfg(test)]
mod typing_tests;
#[cfg(test)]
mod whole_tests;
#[cfg(test)]
mod worlds;
