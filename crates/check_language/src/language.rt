//! The process language: programs, and the plain program.
mod plain;
mod programs;
