// The numbers of tokens for patterns, where a field of a constant cannot stand. (Made by scripts/tables.py.)

pub(crate) mod statement {
    use crate::StatementToken;

    pub(crate) const REM: u8 = StatementToken::REM.0;

    pub(crate) const DATA: u8 = StatementToken::DATA.0;

    pub(crate) const INPUT: u8 = StatementToken::INPUT.0;

    pub(crate) const COLOR: u8 = StatementToken::COLOR.0;

    pub(crate) const LIST: u8 = StatementToken::LIST.0;

    pub(crate) const ENTER: u8 = StatementToken::ENTER.0;

    pub(crate) const LET: u8 = StatementToken::LET.0;

    pub(crate) const IF: u8 = StatementToken::IF.0;

    pub(crate) const FOR: u8 = StatementToken::FOR.0;

    pub(crate) const NEXT: u8 = StatementToken::NEXT.0;

    pub(crate) const GOTO: u8 = StatementToken::GOTO.0;

    pub(crate) const GOSUB: u8 = StatementToken::GOSUB.0;

    pub(crate) const TRAP: u8 = StatementToken::TRAP.0;

    pub(crate) const BYE: u8 = StatementToken::BYE.0;

    pub(crate) const CONT: u8 = StatementToken::CONT.0;

    pub(crate) const COM: u8 = StatementToken::COM.0;

    pub(crate) const CLOSE: u8 = StatementToken::CLOSE.0;

    pub(crate) const CLR: u8 = StatementToken::CLR.0;

    pub(crate) const DEG: u8 = StatementToken::DEG.0;

    pub(crate) const DIM: u8 = StatementToken::DIM.0;

    pub(crate) const END: u8 = StatementToken::END.0;

    pub(crate) const NEW: u8 = StatementToken::NEW.0;

    pub(crate) const OPEN: u8 = StatementToken::OPEN.0;

    pub(crate) const LOAD: u8 = StatementToken::LOAD.0;

    pub(crate) const SAVE: u8 = StatementToken::SAVE.0;

    pub(crate) const STATUS: u8 = StatementToken::STATUS.0;

    pub(crate) const NOTE: u8 = StatementToken::NOTE.0;

    pub(crate) const POINT: u8 = StatementToken::POINT.0;

    pub(crate) const XIO: u8 = StatementToken::XIO.0;

    pub(crate) const ON: u8 = StatementToken::ON.0;

    pub(crate) const POKE: u8 = StatementToken::POKE.0;

    pub(crate) const PRINT: u8 = StatementToken::PRINT.0;

    pub(crate) const RAD: u8 = StatementToken::RAD.0;

    pub(crate) const READ: u8 = StatementToken::READ.0;

    pub(crate) const RESTORE: u8 = StatementToken::RESTORE.0;

    pub(crate) const RETURN: u8 = StatementToken::RETURN.0;

    pub(crate) const RUN: u8 = StatementToken::RUN.0;

    pub(crate) const STOP: u8 = StatementToken::STOP.0;

    pub(crate) const POP: u8 = StatementToken::POP.0;

    pub(crate) const QUESTION: u8 = StatementToken::QUESTION.0;

    pub(crate) const GET: u8 = StatementToken::GET.0;

    pub(crate) const PUT: u8 = StatementToken::PUT.0;

    pub(crate) const GRAPHICS: u8 = StatementToken::GRAPHICS.0;

    pub(crate) const PLOT: u8 = StatementToken::PLOT.0;

    pub(crate) const POSITION: u8 = StatementToken::POSITION.0;

    pub(crate) const DOS: u8 = StatementToken::DOS.0;

    pub(crate) const DRAWTO: u8 = StatementToken::DRAWTO.0;

    pub(crate) const SETCOLOR: u8 = StatementToken::SETCOLOR.0;

    pub(crate) const LOCATE: u8 = StatementToken::LOCATE.0;

    pub(crate) const SOUND: u8 = StatementToken::SOUND.0;

    pub(crate) const LPRINT: u8 = StatementToken::LPRINT.0;

    pub(crate) const CSAVE: u8 = StatementToken::CSAVE.0;

    pub(crate) const CLOAD: u8 = StatementToken::CLOAD.0;
}

pub(crate) mod operator {
    use crate::OperatorToken;

    pub(crate) const COMMA: u8 = OperatorToken::COMMA.0;

    pub(crate) const COLON: u8 = OperatorToken::COLON.0;

    pub(crate) const SEMICOLON: u8 = OperatorToken::SEMICOLON.0;

    pub(crate) const LINE_END: u8 = OperatorToken::LINE_END.0;

    pub(crate) const GOTO: u8 = OperatorToken::GOTO.0;

    pub(crate) const GOSUB: u8 = OperatorToken::GOSUB.0;

    pub(crate) const TO: u8 = OperatorToken::TO.0;

    pub(crate) const STEP: u8 = OperatorToken::STEP.0;

    pub(crate) const THEN: u8 = OperatorToken::THEN.0;

    pub(crate) const CHANNEL_SIGN: u8 = OperatorToken::CHANNEL_SIGN.0;

    pub(crate) const LESS_OR_EQUAL: u8 = OperatorToken::LESS_OR_EQUAL.0;

    pub(crate) const UNEQUAL: u8 = OperatorToken::UNEQUAL.0;

    pub(crate) const GREATER_OR_EQUAL: u8 = OperatorToken::GREATER_OR_EQUAL.0;

    pub(crate) const LESS: u8 = OperatorToken::LESS.0;

    pub(crate) const GREATER: u8 = OperatorToken::GREATER.0;

    pub(crate) const EQUAL: u8 = OperatorToken::EQUAL.0;

    pub(crate) const POWER: u8 = OperatorToken::POWER.0;

    pub(crate) const TIMES: u8 = OperatorToken::TIMES.0;

    pub(crate) const PLUS: u8 = OperatorToken::PLUS.0;

    pub(crate) const MINUS: u8 = OperatorToken::MINUS.0;

    pub(crate) const DIVIDED_BY: u8 = OperatorToken::DIVIDED_BY.0;

    pub(crate) const NOT: u8 = OperatorToken::NOT.0;

    pub(crate) const OR: u8 = OperatorToken::OR.0;

    pub(crate) const AND: u8 = OperatorToken::AND.0;

    pub(crate) const OPEN: u8 = OperatorToken::OPEN.0;

    pub(crate) const CLOSE: u8 = OperatorToken::CLOSE.0;

    pub(crate) const NUMBER_ASSIGNED: u8 = OperatorToken::NUMBER_ASSIGNED.0;

    pub(crate) const STRING_ASSIGNED: u8 = OperatorToken::STRING_ASSIGNED.0;

    pub(crate) const STRING_LESS_OR_EQUAL: u8 = OperatorToken::STRING_LESS_OR_EQUAL.0;

    pub(crate) const STRING_UNEQUAL: u8 = OperatorToken::STRING_UNEQUAL.0;

    pub(crate) const STRING_GREATER_OR_EQUAL: u8 = OperatorToken::STRING_GREATER_OR_EQUAL.0;

    pub(crate) const STRING_LESS: u8 = OperatorToken::STRING_LESS.0;

    pub(crate) const STRING_GREATER: u8 = OperatorToken::STRING_GREATER.0;

    pub(crate) const STRING_EQUAL: u8 = OperatorToken::STRING_EQUAL.0;

    pub(crate) const PREFIX_PLUS: u8 = OperatorToken::PREFIX_PLUS.0;

    pub(crate) const PREFIX_MINUS: u8 = OperatorToken::PREFIX_MINUS.0;

    pub(crate) const SUBSTRING_OPEN: u8 = OperatorToken::SUBSTRING_OPEN.0;

    pub(crate) const ARRAY_OPEN: u8 = OperatorToken::ARRAY_OPEN.0;

    pub(crate) const DIM_ARRAY_OPEN: u8 = OperatorToken::DIM_ARRAY_OPEN.0;

    pub(crate) const FUNCTION_OPEN: u8 = OperatorToken::FUNCTION_OPEN.0;

    pub(crate) const DIM_STRING_OPEN: u8 = OperatorToken::DIM_STRING_OPEN.0;

    pub(crate) const INNER_COMMA: u8 = OperatorToken::INNER_COMMA.0;

    pub(crate) const RAW_END: u8 = OperatorToken::RAW_END.0;
}

pub(crate) mod function {
    use crate::FunctionToken;

    pub(crate) const STR: u8 = FunctionToken::STR.0;

    pub(crate) const CHR: u8 = FunctionToken::CHR.0;

    pub(crate) const ASC: u8 = FunctionToken::ASC.0;

    pub(crate) const VAL: u8 = FunctionToken::VAL.0;

    pub(crate) const LEN: u8 = FunctionToken::LEN.0;

    pub(crate) const ATN: u8 = FunctionToken::ATN.0;

    pub(crate) const COS: u8 = FunctionToken::COS.0;

    pub(crate) const PEEK: u8 = FunctionToken::PEEK.0;

    pub(crate) const SIN: u8 = FunctionToken::SIN.0;

    pub(crate) const RND: u8 = FunctionToken::RND.0;

    pub(crate) const FRE: u8 = FunctionToken::FRE.0;

    pub(crate) const EXP: u8 = FunctionToken::EXP.0;

    pub(crate) const LOG: u8 = FunctionToken::LOG.0;

    pub(crate) const CLOG: u8 = FunctionToken::CLOG.0;

    pub(crate) const SQR: u8 = FunctionToken::SQR.0;

    pub(crate) const SGN: u8 = FunctionToken::SGN.0;

    pub(crate) const ABS: u8 = FunctionToken::ABS.0;

    pub(crate) const INT: u8 = FunctionToken::INT.0;
}
