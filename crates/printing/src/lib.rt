// Prints a report. What is printed is outside the contracts: nothing is worked out here, and the runs are compared with stored files.

#![tactic(auto)]

use report::BrokenList;
use std::io;

fn print_row(rt: &impl Print, row: [u64; 3]) -> io::Result<()> {
    let [first, second, third] = row;
    println!(rt; "{first} {second} {third}")
}

// Prints the report of an input, a row at a time. The list of its broken constraints is large: it is made here once and lent, and not moved.
pub fn print(rt: &impl Print, input: &[u8]) -> io::Result<()> {
    let mut broken = BrokenList::new();
    match report::report_into(input, &mut broken) {
        Ok(opening) => {
            print_row(rt, report::first_row(opening))?;
            for constraint in &broken {
                print_row(rt, constraint.row())?;
            }
            Ok(())
        }
        Err(refusal) => println!(rt; "refused {}", u8::from(refusal)),
    }
}
