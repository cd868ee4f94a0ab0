// What --help and --version print.
pub const VERSION: &str = "sungrieb 0.1.0";

pub const HELP: &str = "sungrieb: patterns over the records of a test bench

  sungrieb run [FILE]     answer a script, from FILE or from standard input, a line for each command
  sungrieb check FILE     check the patterns of a run sheet
  sungrieb --help         print this
  sungrieb --version      print the version

The commands of a script, one a line; blank lines and lines that begin with # are passed over:

  pattern bytes TEXT      read the rest of the line as a pattern over bytes
  pattern events TEXT     read it as a pattern over events
  pattern bytes-hex HEX   the same, with the text in hexadecimal digits
  pattern events-hex HEX
  test K                  the K-th test of the pattern read last
  seal                    fix the classes and positions of that pattern; its draft is used up
  class SYMBOL            the class of a byte (in decimal) or of an event (KIND:VALUE@MOMENT)
  passes CLASS TEST       whether the symbols of a class pass a test
  positions               the sealed pattern's first and last positions, and what follows each

A run sheet has a pattern on each line: NAME bytes TEXT, or NAME events TEXT.";
