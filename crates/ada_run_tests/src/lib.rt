//! Tests of threads, runs and command lines: a thread for each speaker, what runs print beside replays, how they end,
//! and answers held against a check that knows the kernel and the printer alone.
#![tactic(auto)]

#[cfg(test)]
mod all_at_once;
#[cfg(test)]
mod beside;
#[cfg(test)]
mod command_lines;
#[cfg(test)]
mod crew;
#[cfg(test)]
mod free;
#[cfg(test)]
mod hazards;
#[cfg(test)]
mod interrupted;
#[cfg(test)]
mod legal_orders;
#[cfg(test)]
mod moment;
#[cfg(test)]
mod one_by_one;
#[cfg(test)]
mod readers;
#[cfg(test)]
mod referee;
#[cfg(test)]
mod rows;
#[cfg(test)]
mod run_memory;
#[cfg(test)]
mod running;
#[cfg(test)]
mod scripts;
#[cfg(test)]
mod shown;
#[cfg(test)]
mod speakers;
#[cfg(test)]
mod together;
