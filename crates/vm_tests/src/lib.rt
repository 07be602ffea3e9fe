//! Tests of the public calls of texts, of the built-in classes, of the state of the machine, of what instructions do to a frame, to arrays and to the frames, and of library rows. What they expect of texts was written by the JVM.
#![tactic(auto)]

#[cfg(test)]
mod array_rows;
#[cfg(test)]
mod arrays;
#[cfg(test)]
mod calls;
#[cfg(test)]
mod frame_rows;
#[cfg(test)]
mod frames;
#[cfg(test)]
mod heaps;
#[cfg(test)]
mod known;
#[cfg(test)]
mod library;
#[cfg(test)]
mod library_rows;
#[cfg(test)]
mod states;
#[cfg(test)]
mod tables;
#[cfg(test)]
mod text_rows;
#[cfg(test)]
mod texts;
