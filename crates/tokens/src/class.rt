// The classes of items, numbered as the definitions number them: all that the grammar tells apart. (Made by scripts/tables.py.)
// Stays numbers and no enum: the definitions number the classes, and the grammar adds a class to the place of a row to find its entry.

// The line's end.
pub const LINE_END: u8 = 0;

// The line's end after REM or DATA.
pub const RAW_END: u8 = 1;

// What fits nowhere: a byte that starts no item, a refused word.
pub const UNFIT: u8 = 2;

// A constant's text.
pub const NUMBER: u8 = 3;

// A quoted string.
pub const QUOTED: u8 = 4;

// A name.
pub const NUMERIC_VARIABLE: u8 = 5;

// A name with `$`.
pub const STRING_VARIABLE: u8 = 6;

// A name with `(`.
pub const ARRAY: u8 = 7;

// The same three in statement position.
pub const FIRST_NUMERIC: u8 = 8;

pub const FIRST_STRING: u8 = 9;

pub const FIRST_ARRAY: u8 = 10;

// `(`, whatever it opens: operators and functions, from here on.
pub const OPEN_SIGN: u8 = 11;

// `)`.
pub const CLOSE_SIGN: u8 = 12;

// `,`.
pub const COMMA: u8 = 13;

// `:`.
pub const COLON: u8 = 14;

// `;`.
pub const SEMICOLON: u8 = 15;

// `=`.
pub const EQUALS: u8 = 16;

// `<= <> >= < >`.
pub const COMPARISON: u8 = 17;

// `+ -`.
pub const PLUS_MINUS: u8 = 18;

// `^ * /`.
pub const FACTOR_SIGN: u8 = 19;

// NOT.
pub const NOT_WORD: u8 = 20;

// OR, AND.
pub const OR_AND: u8 = 21;

// GOTO, GOSUB as operators.
pub const GOTO_GOSUB: u8 = 22;

// TO.
pub const TO_WORD: u8 = 23;

// STEP.
pub const STEP_WORD: u8 = 24;

// THEN.
pub const THEN_WORD: u8 = 25;

// STR$, CHR$.
pub const STRING_FUNCTION: u8 = 26;

// ASC, VAL, LEN.
pub const FUNCTION_OF_STRING: u8 = 27;

// ATN to INT.
pub const FUNCTION_OF_NUMBER: u8 = 28;

// `#`, the last of the symbols and words that are operators or functions.
pub const CHANNEL_SIGN: u8 = 29;

// The text after REM or DATA.
pub const RAW_TEXT: u8 = 30;

// The statement words, from here on: REM, DATA.
pub const REMARK: u8 = 31;

// READ.
pub const READ_WORD: u8 = 32;

// LET.
pub const LET_WORD: u8 = 33;

// IF.
pub const IF_WORD: u8 = 34;

// FOR.
pub const FOR_WORD: u8 = 35;

// NEXT.
pub const NEXT_WORD: u8 = 36;

// GOTO, GOSUB, TRAP.
pub const JUMP: u8 = 37;

// CLR DEG END POP RAD RETURN STOP.
pub const ALONE: u8 = 38;

// DIM.
pub const DIM_WORD: u8 = 39;

// ON.
pub const ON_WORD: u8 = 40;

// POKE.
pub const POKE_WORD: u8 = 41;

// PRINT, ?.
pub const PRINT_WORD: u8 = 42;

// RESTORE.
pub const RESTORE_WORD: u8 = 43;

// INPUT.
pub const INPUT_WORD: u8 = 44;

// OPEN.
pub const OPEN_WORD: u8 = 45;

// XIO.
pub const XIO_WORD: u8 = 46;

// CLOSE.
pub const CLOSE_WORD: u8 = 47;

// GET, STATUS.
pub const GET_STATUS: u8 = 48;

// PUT.
pub const PUT_WORD: u8 = 49;

// NOTE, POINT.
pub const NOTE_POINT: u8 = 50;
