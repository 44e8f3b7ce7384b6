// The help text.

pub const HELP: &str = "\
trace: every step of one CORDIC pass

usage: trace [options] SYSTEM MODE X Y Z

  SYSTEM           linear, circular or hyperbolic
  MODE             rotation or vectoring
  X Y Z            the registers to load: raw decimals, 1 means 2^-28

  --stage KIND     the stage to run on: parallel (the default) or bit-serial
  --probe          put a probe around the stage and print what it holds
  --help, -h       print this text

With no arguments the first line of standard input is read in their place.

example: trace linear rotation 268435456 0 134217728
";
